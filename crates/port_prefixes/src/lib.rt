// Steps 2 and 3: the prefix machine.
#![tactic(auto)]

ghost use Rattle.std.specs.Prelude.{◌≡◌, eqb, false};
ghost use Rattle.bits.specs.Choice.{when◌then◌else◌};
ghost use Rattle.port.specs.Prefix.{opened, continued, reading_of};

use port::{Code, Prefix, Reading};
use word::ScanCode;

// The two strings that begin with E1.
const PAUSE: [u8; 3] = [0xE1, 0x1D, 0x45];

const PAUSE_BREAK: [u8; 3] = [0xE1, 0x9D, 0xC5];

// A byte with no prefix open, or with E0 open.
fn opening(extended: bool, byte: u8) -> Reading
    ensures { result ≡ opened extended byte }
{
    if byte == 0xE0 {
        return Reading::Opens(Prefix::E0);
    }
    if byte == PAUSE[0] {
        return Reading::Opens(Prefix::E1);
    }
    let scan = ScanCode::from(byte);
    Reading::Key(Code { scan, extended })
}

fn after_e1(byte: u8) -> Reading
    ensures { result ≡ continued Prefix.E1 byte }
{
    if byte == PAUSE[1] {
        return Reading::Opens(Prefix::E1Make);
    }
    if byte == PAUSE_BREAK[1] {
        return Reading::Opens(Prefix::E1Break);
    }
    opening(false, byte)
}

// The last byte of a string that begins with E1, or another.
fn ending(last: u8, reading: Reading, byte: u8) -> Reading
    ensures { result ≡ (when eqb byte last then reading else opened false byte) }
{
    if byte == last {
        return reading;
    }
    opening(false, byte)
}

// What a byte is, given the open prefix.
pub fn read(prefix: Prefix, byte: u8) -> Reading
    ensures { result ≡ reading_of prefix byte }
{
    if (byte == 0x00) | (byte == 0xFF) {
        return Reading::Overrun;
    }
    match prefix {
        Prefix::Closed => opening(false, byte),
        Prefix::E0 => opening(true, byte),
        Prefix::E1 => after_e1(byte),
        Prefix::E1Make => ending(PAUSE[2], Reading::Pauses, byte),
        Prefix::E1Break => ending(PAUSE_BREAK[2], Reading::PauseEnds, byte),
    }
}
