// One event is read from a part of a pack, and the part after it is handed on.
#![tactic(auto)]

ghost use Rattle.std.specs.Prelude.{◌≡◌, MatchResult};
ghost use Rattle.pack.specs.Reading.{byte_of, call_of, tagged_of, first_of, read_at, part_at, rest_of};

use events::{Event, tags};
use pack::{Read, ReadError};

// The most bytes that a pack may have.
pub const LIMIT: usize = 32768;

// The byte of K b and of S b, from the bytes after the tag.
fn read_byte(operands: &[u8]) -> Result<u8, ReadError>
    ensures { MatchResult result (λ byte. (event : _) → byte_of event operands.now ≡ Ok (Some (event byte, 2))) (λ error. (event : _) → byte_of event operands.now ≡ Err error) }
{
    match operands {
        [] => Err(ReadError::CutShort),
        [byte, ..] => Ok(*byte),
    }
}

// C f a b, from the bytes after the tag.
fn read_call(operands: &[u8]) -> Read
    ensures { result ≡ call_of operands.now }
{
    let [function, a, b, ..] = operands else {
        return Err(ReadError::CutShort);
    };
    Ok(Some((Event::Call(*function, *a, *b), 4)))
}

// The event of a tag and the bytes after it. P, T, E and R have no operands.
fn read_tagged(tag: u8, operands: &[u8]) -> Read
    ensures { result ≡ tagged_of tag operands.now }
{
    match tag {
        tags::KEY => Ok(Some((Event::Key(read_byte(operands)?), 2))),
        tags::CALL => read_call(operands),
        tags::POLL => Ok(Some((Event::Poll, 1))),
        tags::TIME_OUT => Ok(Some((Event::TimeOut, 1))),
        tags::EMPTY => Ok(Some((Event::Empty, 1))),
        tags::RESTART => Ok(Some((Event::Restart, 1))),
        tags::SCAN => Ok(Some((Event::Scan(read_byte(operands)?), 2))),
        _ => Err(ReadError::UnknownTag),
    }
}

// The first event of a part.
pub fn read_first(part: &[u8]) -> Read
    ensures { result ≡ first_of part.now }
{
    match part {
        [] => Ok(None),
        [tag, operands @ ..] => read_tagged(*tag, operands),
    }
}

// The event at a start in a pack.
pub fn read_event(pack: &[u8], start: usize) -> Read
    ensures { result ≡ read_at pack.now start }
{
    if LIMIT < pack.len() {
        return Err(ReadError::TooLong);
    }
    if pack.len() < start {
        return Err(ReadError::Beyond);
    }
    read_first(&pack[start..])
}

// The part of a pack from a start on: nothing of a pack that is too long, nothing beyond the length.
pub fn part_at(pack: &[u8], start: usize) -> &[u8]
    ensures { result.now ≡ part_at pack.now start }
{
    if pack.len() > LIMIT {
        return &[];
    }
    pack.get(start..).unwrap_or(&[])
}

// The part after the first event. A part without one is handed on as it is.
pub fn rest(part: &[u8]) -> &[u8]
    ensures { result.now ≡ rest_of (first_of part.now) part.now }
{
    let Ok(Some((_, bytes))) = read_first(part) else {
        return part;
    };
    &part[bytes..]
}
