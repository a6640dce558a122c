// The trace of the pack that a reader gives, to a writer: what the programs share.
#![tactic(auto)]

ghost use Rattle.std.specs.Prelude.{◌≡◌, ◌+◌, ◌≤◌, length, IfOk};
ghost use Rattle.pack.specs.Reading.{limit};
ghost use Rattle.trace.specs.Parts.{part_length};

use std::io;
use std::io::{Read, Write};

// One byte more than a pack may have, so that a longer one is seen to be too long.
const INPUT: usize = pack_reading::LIMIT + 1;

// Why a trace is not written whole: a read or a write failed, and the error within says how.
#[derive(Drop)]
pub enum TraceError {
    NotRead(io::Error),
    NotWritten(io::Error),
}

fn input() -> [u8; INPUT]
    ensures { length result ≡ limit + 1 }
{
    [0; INPUT]
}

fn output() -> [u8; trace::PART]
    ensures { length result ≡ part_length }
{
    [0; trace::PART]
}

// Reads on to the end. What it writes over is not looked at: a pack this long is refused whole.
fn drain<R: Read>(reader: &mut R, pack: &mut [u8]) -> io::Result<()> {
    for _ in 0..u64::MAX {
        if reader.read(pack)? == 0 {
            break;
        }
    }
    Ok(())
}

// Reads to the end or to a read that fails. How many bytes of the buffer the pack has. The loop counts bytes and not rounds, and needs no heap.
fn read_pack<R: Read>(reader: &mut R, pack: &mut [u8]) -> io::Result<usize>
    ensures { IfOk result (λ count. count ≤ length pack.new) }
{
    let mut count: usize = 0;
    while count < pack.len() {
        let bytes = reader.read(&mut pack[count..])?;
        if bytes == 0 {
            return Ok(count);
        }
        count += bytes;
    }
    drain(reader, pack)?;
    Ok(count)
}

// Nothing is written before the pack is read to its end, so that a failed read leaves the writer as it was.
pub fn write_trace<R: Read, W: Write>(reader: &mut R, writer: &mut W) -> Result<(), TraceError> {
    let mut pack = input();
    let length = read_pack(reader, &mut pack).map_err(TraceError::NotRead)?;
    let mut text = output();
    let mut place = trace::begin();
    while !place.ended {
        let part = trace_parts::next_part(&pack[..length], place, &mut text);
        writer
            .write_all(&text[..part.length])
            .map_err(TraceError::NotWritten)?;
        place = part.place;
    }
    Ok(())
}
