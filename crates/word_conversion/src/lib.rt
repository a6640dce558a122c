// Words as old programs know them.
#![tactic(auto)]

ghost use Rattle.std.specs.Prelude.{◌≡◌};
ghost use Rattle.word.specs.OldWord.{old_word_of};

use word::{Ascii, ScanCode, Word};

#[tactic(auto, using(word::proofs::Laws::old_grey_enter, word::proofs::Laws::old_grey_ctrl_enter, word::proofs::Laws::old_grey_slash))]
fn converted(word: Word) -> Word
    ensures { result ≡ old_word_of word }
{
    match u16::from(word) {
        0xE00D => Word::from(0x1C0D),
        0xE00A => Word::from(0x1C0A),
        0xE02F => Word::from(0x352F),
        _ if (word.high() != 0x00) & (word.low() == 0xE0) => {
            Word::new(ScanCode::from(word.high()), Ascii::from(0x00))
        }
        _ => word,
    }
}

// What functions 00 and 01 return for the word: for most, which have no E0, the word itself at once.
pub fn as_old(word: Word) -> Word
    ensures { result ≡ old_word_of word }
{
    if (word.high() == 0xE0) | (word.low() == 0xE0) {
        return converted(word);
    }
    word
}
