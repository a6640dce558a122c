// The calls for C on an image: what goes over, the definitions of what each call leaves, returns and writes, and what holds of lists of them.
// Their code is in `image_reading`, `image_renewal`, `image_events` and `xiquepazo`.
#![tactic(auto)]

use image::Image;
use state::Service;

// What is seen of an event: its number, its word, the count of bytes sent, and the flag bytes after it.
#[repr(C)]
#[derive(Clone, Copy)]
pub struct Shown {
    pub word: u16,
    pub ans: u8,
    pub sent: u8,
    pub byte17: u8,
    pub byte18: u8,
    pub byte96: u8,
    pub byte97: u8,
}

// What is seen of a port event: what is seen of any event, with the key that it feeds among it; the byte read, 0 where none is; the status after it;
// and, as 0 or 1, whether interrupt 1 is raised and whether the byte was fed.
#[repr(C)]
#[derive(Clone, Copy)]
pub struct PortShown {
    pub shown: Shown,
    pub byte: u8,
    pub status: u8,
    pub interrupt: u8,
    pub fed: u8,
}

// An event as a pack writes it: its capital and up to three bytes.
#[repr(C)]
#[derive(Clone, Copy, Default)]
pub struct Tagged {
    pub tag: u8,
    pub a: u8,
    pub b: u8,
    pub c: u8,
}

// A service after an event, and what it answered.
#[derive(Clone, Copy)]
pub struct Ran {
    pub service: Service,
    pub ans: u8,
    pub word: u16,
    pub sent: u8,
}

#[derive(Clone, Copy)]
pub struct Changed {
    pub image: Image,
    pub shown: Shown,
}

#[derive(Clone, Copy)]
pub struct PortChanged {
    pub image: Image,
    pub shown: PortShown,
}

// What a report leaves: refusal 0, or its number. A number and no enum, since the event's answer is C's number here too.
#[derive(Clone, Copy)]
pub struct Refused {
    pub image: Image,
    pub refusal: u8,
}

// `next` is where the next event begins, or the start where none was read; then the tag is 0.
#[repr(C)]
#[derive(Clone, Copy)]
pub struct Reading {
    pub next: usize,
    pub event: Tagged,
    pub refusal: u8,
}
