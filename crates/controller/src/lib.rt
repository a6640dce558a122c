// The keyboard controller at ports 60 and 64: its types, its state and status, what its events do and what holds of them. The code of the events is in
// `controller_events`. Every value of the types has a meaning, so no call asks anything.
#![tactic(auto)]

ghost use Rattle.std.specs.Prelude.{◌≡◌};
ghost use Rattle.controller.specs.State.{new_controller, is_full, status_of};
ghost use Rattle.controller.specs.PortEvents.{byte_in, interrupt_in, is_key_in};

// What the output buffer holds: nothing, where it keeps the byte that was read last; a byte from the keyboard; or an answer of the controller's own.
#[derive(Clone, Copy)]
pub enum Buffer {
    Empty(u8),
    Key(u8),
    Answer(u8),
}

// `command` is the command byte: bit 0 lets a keyboard byte raise interrupt 1, bit 4 disables the
// keyboard. `awaiting` says that the next write to 60 is the command byte, `commanded` that the last accepted write went to 64.
#[derive(Clone, Copy)]
pub struct Controller {
    pub buffer: Buffer,
    pub command: u8,
    pub awaiting: bool,
    pub commanded: bool,
}

// A byte from the keyboard; a read of a port; a byte written to one.
#[derive(Clone, Copy)]
pub enum PortEvent {
    FromKeyboard(u8),
    Read60,
    Read64,
    Write60(u8),
    Write64(u8),
}

// 14: the buffer is full or the keyboard disabled; 15: the command is not listed; 16: no command byte is awaited.
#[derive(Clone, Copy)]
pub enum PortRefusal {
    Busy,
    Command,
    Unawaited,
}

// Accepted, with or without interrupt 1; a byte that is read and no more; a key that is read and has to be fed; refused. One of these each
// time: so nothing but a key is ever fed, and nothing that is read interrupts.
#[derive(Clone, Copy)]
pub enum Response {
    Accepted,
    Interrupt,
    Byte(u8),
    Key(u8),
    Refused(PortRefusal),
}

// What a port event leaves, and what comes of it.
#[derive(Clone, Copy)]
pub struct Responded {
    pub controller: Controller,
    pub response: Response,
}

// The controller as it is made, and as R leaves it.
#[tactic(auto, unfolding(crate::specs::State::new_controller))]
pub fn new() -> Controller
    ensures { result ≡ new_controller }
{
    Controller {
        buffer: Buffer::Empty(0x00),
        command: 0x01,
        awaiting: false,
        commanded: false,
    }
}

// Whether there is a byte to read.
#[tactic(auto, unfolding(crate::specs::State::is_full))]
pub fn full(buffer: Buffer) -> bool
    ensures { result ≡ is_full buffer }
{
    !matches!(buffer, Buffer::Empty(_))
}

// The status, which port 64 gives.
pub fn status(controller: Controller) -> u8
    ensures { result ≡ status_of controller }
{
    let buffer = controller.buffer;
    bits::byte(
        full(buffer),
        false,
        true,
        controller.commanded,
        true,
        false,
        false,
        false,
    )
}

// What a response shows: the byte read, 0 where none is; whether interrupt 1 is raised; whether the byte has to be fed.
pub fn byte_in(response: Response) -> u8
    ensures { result ≡ byte_in response }
{
    match response {
        Response::Byte(byte) | Response::Key(byte) => byte,
        _ => 0,
    }
}

pub fn interrupt_in(response: Response) -> bool
    ensures { result ≡ interrupt_in response }
{
    matches!(response, Response::Interrupt)
}

pub fn is_key_in(response: Response) -> bool
    ensures { result ≡ is_key_in response }
{
    matches!(response, Response::Key(_))
}
