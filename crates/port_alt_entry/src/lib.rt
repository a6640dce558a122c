// Step 7: a character entered as a number on the keypad, with Alt down.
#![tactic(auto)]

ghost use Rattle.std.specs.Prelude.{◌≡◌, position};
ghost use Rattle.word.specs.Word.{is_code};
ghost use Rattle.port.specs.AltEntry.{digit_keys, digit_in, alt_digit, sum_after, sum_put, alt_ended};

use port::{Code, Decoded, Effect, Port, Shared};
use word::{Ascii, ScanCode, Word};

// The codes of the digits 0 to 9.
const DIGIT_KEYS: [u8; 10] = [0x52, 0x4F, 0x50, 0x51, 0x4B, 0x4C, 0x4D, 0x47, 0x48, 0x49];

fn place(scan: ScanCode) -> Option<usize>
    ensures { result ≡ position (λ key. is_code key scan) digit_keys }
{
    DIGIT_KEYS.iter().position(|&key| scan.is(key))
}

fn keypad_digit(scan: ScanCode) -> Option<u8>
    ensures { result ≡ digit_in scan }
{
    let digit = place(scan)?;
    Some(digit as u8)
}

// The digit that a code enters: with Alt, and not after E0.
pub fn alt_digit(alt: bool, code: Code) -> Option<u8>
    ensures { result ≡ alt_digit alt code }
{
    if alt & !code.extended {
        return keypad_digit(code.scan);
    }
    None
}

pub fn sum_after(sum: u8, digit: u8) -> u8
    ensures { result ≡ sum_after sum digit }
{
    ((10 * (sum as u16) + (digit as u16)) % 256) as u8
}

fn sum_put(sum: u8) -> Effect
    ensures { result ≡ sum_put sum }
{
    if sum == 0 {
        return Effect::Nothing;
    }
    Effect::Put(Word::new(ScanCode::from(0), Ascii::from(sum)))
}

// The last Alt goes up: a sum above 0 is put, and the sum becomes 0.
#[tactic(auto, unfolding(port::specs::AltEntry::alt_ended))]
pub fn ended(port: Port, shared: Shared) -> Decoded
    ensures { result ≡ alt_ended port shared }
{
    let effect = sum_put(port.sum);
    port::result(port::with_sum(port, 0), shared, effect)
}
