// Scan code set 2 and its translation to set 1, which stands before the first step of a keyboard byte. A byte of set 1 passes as it is.
#![tactic(auto)]

ghost use Rattle.std.specs.Prelude.{◌≡◌};
ghost use Rattle.translation.specs.Translation.{unmarked_of, set_of, set_one_code, break_of, passes, from_set_two, translated_of};

// The scan code set that a keyboard sends.
#[derive(Clone, Copy)]
pub enum CodeSet {
    One,
    Two,
}

// The codes that come: those of set 1, those of set 2, or those of set 2 with the next one marked as a break.
#[derive(Clone, Copy)]
pub enum Codes {
    SetOne,
    SetTwo,
    SetTwoMarked,
}

// What comes of a byte: the codes that come after it, and the byte of set 1 that it becomes, if it becomes one.
#[derive(Clone, Copy)]
pub struct Translated {
    pub passed: Option<u8>,
    pub codes: Codes,
}

// Set 1's code for each code of set 2 below 80, eight a line.
const TABLE: [[u8; 8]; 16] = [
    [0xFF, 0x43, 0x41, 0x3F, 0x3D, 0x3B, 0x3C, 0x58],
    [0x64, 0x44, 0x42, 0x40, 0x3E, 0x0F, 0x29, 0x59],
    [0x65, 0x38, 0x2A, 0x70, 0x1D, 0x10, 0x02, 0x5A],
    [0x66, 0x71, 0x2C, 0x1F, 0x1E, 0x11, 0x03, 0x5B],
    [0x67, 0x2E, 0x2D, 0x20, 0x12, 0x05, 0x04, 0x5C],
    [0x68, 0x39, 0x2F, 0x21, 0x14, 0x13, 0x06, 0x5D],
    [0x69, 0x31, 0x30, 0x23, 0x22, 0x15, 0x07, 0x5E],
    [0x6A, 0x72, 0x32, 0x24, 0x16, 0x08, 0x09, 0x5F],
    [0x6B, 0x33, 0x25, 0x17, 0x18, 0x0B, 0x0A, 0x60],
    [0x6C, 0x34, 0x35, 0x26, 0x27, 0x19, 0x0C, 0x61],
    [0x6D, 0x73, 0x28, 0x74, 0x1A, 0x0D, 0x62, 0x6E],
    [0x3A, 0x36, 0x1C, 0x1B, 0x75, 0x2B, 0x63, 0x76],
    [0x55, 0x56, 0x77, 0x78, 0x79, 0x7A, 0x0E, 0x7B],
    [0x7C, 0x4F, 0x7D, 0x4B, 0x47, 0x7E, 0x7F, 0x6F],
    [0x52, 0x53, 0x50, 0x4C, 0x4D, 0x48, 0x01, 0x45],
    [0x57, 0x4E, 0x51, 0x4A, 0x37, 0x49, 0x46, 0x54],
];

// The codes of a set, with no mark.
pub fn unmarked(set: CodeSet) -> Codes
    ensures { result ≡ unmarked_of set }
{
    match set {
        CodeSet::One => Codes::SetOne,
        CodeSet::Two => Codes::SetTwo,
    }
}

// The set that the codes are of.
pub fn set_of(codes: Codes) -> CodeSet
    ensures { result ≡ set_of codes }
{
    match codes {
        Codes::SetOne => CodeSet::One,
        Codes::SetTwo => CodeSet::Two,
        Codes::SetTwoMarked => CodeSet::Two,
    }
}

fn set_one_code(code: u8) -> u8
    ensures { result ≡ set_one_code code }
{
    if code < 0x80 {
        return TABLE[(code / 8) as usize][(code % 8) as usize];
    }
    match code {
        0x83 => 0x41,
        0x84 => 0x54,
        _ => code,
    }
}

// The code with bit 7 set.
fn break_of(code: u8) -> u8
    ensures { result ≡ break_of code }
{
    code % 0x80 + 0x80
}

fn passing(codes: Codes, byte: u8) -> Translated
    ensures { result ≡ passes codes byte }
{
    Translated {
        codes,
        passed: Some(byte),
    }
}

// A byte of set 2 that would be this code of set 1, if it is a code.
fn from_set_two(codes: Codes, byte: u8, code: u8) -> Translated
    ensures { result ≡ from_set_two codes byte code }
{
    if byte == 0xF0 {
        return Translated {
            codes: Codes::SetTwoMarked,
            passed: None,
        };
    }
    if (byte == 0xFA) | (byte == 0xFE) {
        return passing(codes, byte);
    }
    if (byte == 0xE0) | (byte == 0xE1) {
        return passing(Codes::SetTwo, byte);
    }
    passing(Codes::SetTwo, code)
}

// What a byte becomes, and what it does to the mark.
#[tactic(auto, unfolding(crate::specs::Translation::translated_of))]
pub fn translate(codes: Codes, byte: u8) -> Translated
    ensures { result ≡ translated_of codes byte }
{
    match codes {
        Codes::SetOne => passing(codes, byte),
        Codes::SetTwo => from_set_two(codes, byte, set_one_code(byte)),
        Codes::SetTwoMarked => from_set_two(codes, byte, break_of(set_one_code(byte))),
    }
}
