// A part of the text of a pack, written: the reports of its events, then where reading ended and why.
#![tactic(auto)]

ghost use Rattle.std.specs.Prelude.{◌≡◌, ◌++◌, ◌+◌, ◌≤◌, length, take, drop};
ghost use Rattle.events.specs.Run.{next};
ghost use Rattle.pack.specs.Reading.{read_at, refusal_of};
ghost use Rattle.report.specs.Text.{text_of};
ghost use Rattle.report.specs.Reported.{event_report};
ghost use Rattle.trace.specs.Trace.{closing_of};
ghost use Rattle.trace.specs.Parts.{place_at, ended_at, part_of, part_in};

use events::Event;
use state::Service;
use trace::{PART, Part, Place, REPORTS};

const CLOSING: usize = 19;

// The closing lines, with a point for each character that is filled in.
const BLANK: [u8; CLOSING] = *b"end=....\nrefused=.\n";

#[tactic(auto, unfolding(trace::specs::Trace::closing_of))]
fn closing(end: u16, refusal: u8) -> [u8; CLOSING]
    ensures { result ≡ closing_of end refusal }
{
    let high = digits::high_byte(end);
    let low = digits::low_byte(end);
    let mut lines = BLANK;
    lines[4] = digits::high(high);
    lines[5] = digits::low(high);
    lines[6] = digits::high(low);
    lines[7] = digits::low(low);
    lines[17] = digits::digit(refusal);
    lines
}

// The closing lines from an index of the text on, which end the printing there.
#[tactic(auto, unfolding(trace::specs::Trace::closing_of))]
fn close_at(service: Service, end: u16, refusal: u8, text: &mut [u8], at: usize) -> Part
    requires { at + 19 ≤ length text.old }
    ensures place_value { (result.place ≡ ended_at service end) × (result.length ≡ at + 19) }
    ensures text_after { text.new ≡ take at text.old ++ (closing_of end refusal ++ drop (at + 19) text.old) }
{
    let lines = closing(end, refusal);
    text[at..at + CLOSING].copy_from_slice(&lines);
    let place = Place {
        service,
        offset: end,
        ended: true,
    };
    Part {
        place,
        length: at + CLOSING,
    }
}

// One event, with its report from an index of the text on, by the lent call: whatever a program traces runs through it.
fn report_at(service: Service, event: Event, text: &mut [u8], at: usize) -> Service
    requires { at + 44 ≤ length text.old }
    ensures value { result ≡ next service event }
    ensures text_after { text.new ≡ take at text.old ++ (text_of (event_report service event) ++ drop (at + 44) text.old) }
{
    let back = lent::report_on_copy(service, event, &mut text[at..]);
    back.service
}

// Printing goes on with the event at an offset.
fn place_at(service: Service, offset: u16) -> Place
    ensures { result ≡ place_at service offset }
{
    Place {
        service,
        offset,
        ended: false,
    }
}

// Why no event can be read at an offset, 0 at the end.
fn refusal_at(pack: &[u8], offset: u16) -> u8
    ensures { result ≡ refusal_of (read_at pack.now offset) }
{
    let read = pack_reading::read_event(pack, offset as usize);
    pack::refusal(read)
}

// Writes the next part of a pack's text to the start of `text`, and leaves the bytes behind it as they were.
pub fn next_part(pack: &[u8], place: Place, text: &mut [u8; PART]) -> Part
    ensures value { result ≡ part_of pack.now place }
    ensures text_after { text.new ≡ part_in pack.now place text.old }
{
    if place.ended {
        return Part { place, length: 0 };
    }
    let mut service = place.service;
    let mut offset = place.offset;
    let mut part = pack_reading::part_at(pack, offset as usize);
    let mut at: usize = 0;
    for _ in 0..REPORTS {
        let Ok(Some((event, bytes))) = pack_reading::read_first(part) else {
            return close_at(service, offset, refusal_at(pack, offset), text, at);
        };
        service = report_at(service, event, text, at);
        part = &part[bytes..];
        offset += bytes as u16;
        at += report::LENGTH;
    }
    Part {
        place: place_at(service, offset),
        length: at,
    }
}
