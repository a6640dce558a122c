// Frames of the serial line: the eleven bits by which a byte travels between keyboard and board, written and read.
#![tactic(auto)]

ghost use Rattle.std.specs.Prelude.{◌≡◌};
ghost use Rattle.frame.specs.Frame.{frame_of, read_frame};

// Where a frame has its bits; the start bit, 0, is the lowest.
const DATA_AND_PARITY: u16 = 0x03FE;

const PARITY: u16 = 0x0200;

const STOP: u16 = 0x0400;

// Why a frame is refused.
#[derive(Clone, Copy)]
pub enum Fault {
    Start,
    Parity,
    Stop,
}

// The frame of a byte.
pub fn write(byte: u8) -> u16
    ensures { result ≡ frame_of byte }
{
    let data = (byte as u16) << 1;
    if u16::count_ones(data) & 1 == 1 {
        return STOP + data;
    }
    STOP + PARITY + data
}

// The byte of a frame, or the first fault in the order of their numbers.
pub fn read(frame: u16) -> Result<u8, Fault>
    ensures { result ≡ read_frame frame }
{
    if (2048 <= frame) | (frame & 1 != 0) {
        return Err(Fault::Start);
    }
    if u16::count_ones(frame & DATA_AND_PARITY) & 1 != 1 {
        return Err(Fault::Parity);
    }
    if (frame >> 10) & 1 != 1 {
        return Err(Fault::Stop);
    }
    Ok(((frame >> 1) & 255) as u8)
}
