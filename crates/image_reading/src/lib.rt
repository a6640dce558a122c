// Events as C has them, by tag and bytes, and a pack as C reads it, event by event.
#![tactic(auto)]

ghost use Rattle.std.specs.Prelude.{◌≡◌, ◌≤◌, length, drop};
ghost use Rattle.pack.specs.Reading.{first_of, rest_of};
ghost use Rattle.image_calls.specs.Exports.{written, recognised};
ghost use Rattle.image_calls.specs.Reads.{begins_at, read_to};

use events::{Event, tags};
use image_calls::{Reading, Tagged};

// An event by its tag and bytes. Those that it does not use are 0.
pub fn tagged_of(event: Event) -> Tagged
    ensures { result ≡ written event }
{
    let tag = tags::tag_of(event);
    let plain = Tagged {
        tag,
        ..Tagged::default()
    };
    match event {
        Event::Key(byte) => Tagged { a: byte, ..plain },
        Event::Call(function, a, b) => Tagged {
            a: function,
            b: a,
            c: b,
            ..plain
        },
        Event::Poll | Event::TimeOut | Event::Empty | Event::Restart => plain,
        Event::Scan(byte) => Tagged { a: byte, ..plain },
    }
}

// The event of a tag and its bytes.
pub fn recognise(tagged: Tagged) -> Option<Event>
    ensures { result ≡ recognised tagged }
{
    match tagged.tag {
        tags::KEY => Some(Event::Key(tagged.a)),
        tags::CALL => Some(Event::Call(tagged.a, tagged.b, tagged.c)),
        tags::POLL => Some(Event::Poll),
        tags::TIME_OUT => Some(Event::TimeOut),
        tags::EMPTY => Some(Event::Empty),
        tags::RESTART => Some(Event::Restart),
        tags::SCAN => Some(Event::Scan(tagged.a)),
        _ => None,
    }
}

// Where the part that is handed on begins.
fn next_start(pack: &[u8], start: usize) -> usize
    requires { start ≤ length pack.now }
    ensures { result ≡ begins_at pack.now (rest_of (first_of (drop start pack.now)) (drop start pack.now)) }
{
    let rest = pack_reading::rest(&pack[start..]);
    pack.len() - rest.len()
}

// The event at a start in a pack, and where the next begins.
pub fn read_at(pack: &[u8], start: usize) -> Reading
    ensures { result ≡ read_to pack.now start }
{
    let read = pack_reading::read_event(pack, start);
    let Ok(Some((event, _))) = read else {
        return Reading {
            next: start,
            event: Tagged::default(),
            refusal: pack::refusal(read),
        };
    };
    Reading {
        next: next_start(pack, start),
        event: tagged_of(event),
        refusal: 0,
    }
}
