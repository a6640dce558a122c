// What an event, a frame or a port event answers, and the number and the word by which a report or a struct for C shows it.
#![tactic(auto)]

ghost use Rattle.std.specs.Prelude.{◌≡◌};
ghost use Rattle.answers.specs.Answers.{refused_ans, ans_of, word_of};

use controller::PortRefusal;
use frame::Fault;
use word::Word;

// Why an int 16h call, a frame or a port event is turned away.
#[derive(Clone, Copy)]
pub enum Refusal {
    Function,
    Delay,
    Rate,
    Full,
    Frame(Fault),
    Port(PortRefusal),
}

// What an event, a frame or a port event answers.
#[derive(Clone, Copy)]
pub enum Answer {
    Nothing,
    Put(Word),
    Dropped(Word),
    Break,
    RestartAsked,
    Overrun,
    Taken,
    Ignored,
    Returned(Word),
    NoWord,
    Status(u16),
    Done,
    Stored(Word),
    Send(u8),
    Quiet,
    GivenUp,
    Refused(Refusal),
}

impl Refusal {
    // 80 and the refusal's own number.
    fn number(self) -> u8
        ensures { result ≡ refused_ans self }
    {
        match self {
            Refusal::Function => 0x82,
            Refusal::Delay => 0x83,
            Refusal::Rate => 0x84,
            Refusal::Full => 0x85,
            Refusal::Frame(Fault::Start) => 0x8B,
            Refusal::Frame(Fault::Parity) => 0x8C,
            Refusal::Frame(Fault::Stop) => 0x8D,
            Refusal::Port(PortRefusal::Busy) => 0x8E,
            Refusal::Port(PortRefusal::Command) => 0x8F,
            Refusal::Port(PortRefusal::Unawaited) => 0x90,
        }
    }
}

impl Answer {
    // The number of an answer.
    pub fn number(self) -> u8
        ensures { result ≡ ans_of self }
    {
        match self {
            Answer::Nothing => 0x00,
            Answer::Put(_) => 0x01,
            Answer::Dropped(_) => 0x02,
            Answer::Break => 0x03,
            Answer::RestartAsked => 0x04,
            Answer::Overrun => 0x05,
            Answer::Taken => 0x06,
            Answer::Ignored => 0x07,
            Answer::Returned(_) => 0x08,
            Answer::NoWord => 0x09,
            Answer::Status(_) => 0x0A,
            Answer::Done | Answer::Stored(_) => 0x0B,
            Answer::Send(_) => 0x0C,
            Answer::Quiet => 0x0D,
            Answer::GivenUp => 0x0E,
            Answer::Refused(refusal) => refusal.number(),
        }
    }

    // The word that was put, dropped, returned or sent, a status included, else 0.
    pub fn word(self) -> u16
        ensures { result ≡ word_of self }
    {
        match self {
            Answer::Put(word)
            | Answer::Dropped(word)
            | Answer::Returned(word)
            | Answer::Stored(word) => u16::from(word),
            Answer::Status(status) => status,
            Answer::Send(byte) => u16::from(byte),
            _ => 0,
        }
    }
}
