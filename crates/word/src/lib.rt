// Scan codes, ASCII bytes and the words made of them. The three types are built and opened in this crate only.
#![tactic(auto)]

ghost use Rattle.std.specs.Prelude.{◌≡◌};
ghost use Rattle.word.specs.Word.{code_of, ascii_of, is_code, within, table_index, word_with, is_enhanced, word_from, number_of};

// The number of a key.
#[derive(Clone, Copy)]
pub struct ScanCode(u8);

// The number of a character.
#[derive(Clone, Copy)]
pub struct Ascii(u8);

#[derive(Clone, Copy)]
pub struct Word {
    scan: ScanCode,
    ascii: Ascii,
}

impl From<u8> for ScanCode {
    ghost from_gives = { λ byte code. code ≡ code_of byte };

    fn from(byte: u8) -> Self {
        ScanCode(byte)
    }
}

impl From<u8> for Ascii {
    ghost from_gives = { λ byte ascii. ascii ≡ ascii_of byte };

    fn from(byte: u8) -> Self {
        Ascii(byte)
    }
}

impl ScanCode {
    // Whether the code has this number.
    pub fn is(self, number: u8) -> bool
        ensures { result ≡ is_code number self }
    {
        self.0 == number
    }

    // Whether the code's number lies in a run.
    pub fn within(self, first: u8, last: u8) -> bool
        ensures { result ≡ within first last self }
    {
        (first <= self.0) & (self.0 <= last)
    }

    // The code's place in a table with a place for each code.
    pub fn table_index(self) -> usize
        ensures { result ≡ table_index self }
    {
        self.0 as usize
    }
}

impl Word {
    pub fn new(scan: ScanCode, ascii: Ascii) -> Self
        ensures { result ≡ word_with scan ascii }
    {
        Word { scan, ascii }
    }

    pub fn high(self) -> u8
        ensures { result ≡ self.scan.0 }
    {
        self.scan.0
    }

    pub fn low(self) -> u8
        ensures { result ≡ self.ascii.0 }
    {
        self.ascii.0
    }

    // Whether functions 00 and 01 pass the word over.
    pub fn is_enhanced(self) -> bool
        ensures { result ≡ is_enhanced self }
    {
        (0x85 <= self.scan.0) & (self.ascii.0 == 0x00)
    }
}

// The word of a 16-bit number, scan code high.
impl From<u16> for Word {
    ghost from_gives = { λ number word. word ≡ word_from number };

    fn from(number: u16) -> Self {
        Word::new(ScanCode((number / 256) as u8), Ascii((number % 256) as u8))
    }
}

// The 16-bit number of a word, scan code high.
impl From<Word> for u16 {
    ghost from_gives = { λ word number. number ≡ number_of word };

    fn from(word: Word) -> Self {
        (word.scan.0 as u16) * 256 + (word.ascii.0 as u16)
    }
}
