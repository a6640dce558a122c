// Hexadecimal digits, upper case. Every number of a text is shown by `digit`.
// Contracts say quotient and remainder; the code only shifts and masks, because small processors take long to divide: document 02, W-204.
#![tactic(auto)]

ghost use Rattle.std.specs.Prelude.{◌≡◌, ◌/◌, ◌%◌};
ghost use Rattle.digits.specs.Digits.{digit_of};

// The upper four bits of a byte.
fn high_nibble(byte: u8) -> u8
    ensures { result ≡ byte / 16 }
{
    byte >> 4
}

// The lower four bits of a byte.
fn low_nibble(byte: u8) -> u8
    ensures { result ≡ byte % 16 }
{
    byte & 0x0F
}

const CHARACTERS: [u8; 16] = *b"0123456789ABCDEF";

// The character of a number from 0 to 15; of a greater one, that of its last digit.
pub fn digit(number: u8) -> u8
    ensures { result ≡ digit_of number }
{
    CHARACTERS[low_nibble(number) as usize]
}

// The first of a byte's two digits.
pub fn high(byte: u8) -> u8
    ensures { result ≡ digit_of (byte / 16) }
{
    digit(high_nibble(byte))
}

// The second of a byte's two digits.
pub fn low(byte: u8) -> u8
    ensures { result ≡ digit_of byte }
{
    digit(byte)
}

// The byte that a word's first two digits show.
pub fn high_byte(word: u16) -> u8
    ensures { result ≡ word / 256 }
{
    (word >> 8) as u8
}

// The byte that a word's last two digits show.
pub fn low_byte(word: u16) -> u8
    ensures { result ≡ word % 256 }
{
    (word & 0xFF) as u8
}
