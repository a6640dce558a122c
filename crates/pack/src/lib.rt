// Packs: what a reading of one finds, and its refusals.
#![tactic(auto)]

ghost use Rattle.std.specs.Prelude.{◌≡◌};
ghost use Rattle.pack.specs.Reading.{refusal_of};

use events::Event;

// Why no event can be read.
#[derive(Clone, Copy)]
pub enum ReadError {
    UnknownTag,
    CutShort,
    TooLong,
    Beyond,
}

// What a reading finds: an event with the count of its bytes, nothing at the end, or why there is neither.
pub type Read = Result<Option<(Event, usize)>, ReadError>;

// The number of a refusal, 0 for an event or the end.
pub fn refusal(read: Read) -> u8
    ensures { result ≡ refusal_of read }
{
    match read {
        Ok(_) => 0,
        Err(ReadError::UnknownTag) => 6,
        Err(ReadError::CutShort) => 7,
        Err(ReadError::TooLong) => 8,
        Err(ReadError::Beyond) => 10,
    }
}
