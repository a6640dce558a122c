// Int 16h: each function by its own handler, and `call`, which finds it.
#![tactic(auto)]

ghost use Rattle.std.specs.Prelude.{◌≡◌};
ghost use Rattle.word.specs.declared.Word.{Word};
ghost use Rattle.word.specs.OldWord.{old_word_of};
ghost use Rattle.line.specs.State.{wait_rate_of};
ghost use Rattle.answers.specs.declared.Answer.TheVariants.{Done, Refused};
ghost use Rattle.state.specs.declared.Service.{Service};
ghost use Rattle.state.specs.State.{with_line};
ghost use Rattle.events.specs.Outcomes.{answered_of};
ghost use Rattle.events.specs.Functions.{as_stored, oldest_answer, for_old_program, take_of, look_of, status_of, set_rate_of, store_of, call_of};

use answers::{Answer, Refusal};
use events::Outcome;
use state::Service;
use state_flags::status::status_high;
use word::{Ascii, ScanCode, Word};

// How a program knows words: which it may see, and what it is told of one.
trait Program {
    ghost seen: { Service → Service };

    ghost returned: { Word → Word };

    fn seen(service: Service) -> Service
        ensures { result ≡ seen service };

    fn returned(word: Word) -> Word
        ensures { result ≡ returned word };
}

// A program that knows every word that is stored. It calls 10 and 11.
struct Current;

impl Program for Current {
    ghost seen = { λ service. service };

    ghost returned = { as_stored };

    fn seen(service: Service) -> Service {
        service
    }

    fn returned(word: Word) -> Word {
        word
    }
}

// A program from before grey keys had words of their own. It calls 00 and 01.
struct Old;

impl Program for Old {
    ghost seen = { for_old_program };

    ghost returned = { old_word_of };

    #[tactic(auto, unfolding(events::specs::Functions::for_old_program))]
    fn seen(service: Service) -> Service {
        let mut seen = service;
        seen.queue.pass_enhanced();
        seen
    }

    fn returned(word: Word) -> Word {
        word_conversion::as_old(word)
    }
}

fn answer<P: Program>(oldest: Option<Word>) -> Answer
    ensures { result ≡ oldest_answer P.returned oldest }
{
    match oldest {
        None => Answer::NoWord,
        Some(word) => Answer::Returned(P::returned(word)),
    }
}

// 00 and 10.
#[tactic(auto, unfolding(events::specs::Functions::take_of))]
fn take<P: Program>(service: Service) -> Outcome
    ensures { result ≡ take_of P.returned (P.seen service) }
{
    let mut seen = P::seen(service);
    let oldest = seen.queue.take();
    events_outcomes::answered(seen, answer::<P>(oldest))
}

// 01 and 11.
#[tactic(auto, unfolding(events::specs::Functions::look_of))]
fn look<P: Program>(service: Service) -> Outcome
    ensures { result ≡ look_of P.returned (P.seen service) }
{
    let seen = P::seen(service);
    events_outcomes::answered(seen, answer::<P>(seen.queue.first()))
}

// 02 and 12: a status of two bytes.
#[tactic(auto, unfolding(events::specs::Functions::status_of))]
fn status(service: Service, high: u8, low: u8) -> Outcome
    ensures { result ≡ status_of service high low }
{
    events_outcomes::answered(service, Answer::Status((high as u16) * 256 + (low as u16)))
}

fn refused(service: Service, refusal: Refusal) -> Outcome
    ensures { result ≡ answered_of service (Refused refusal) }
{
    events_outcomes::answered(service, Answer::Refused(refusal))
}

fn wait_rate(service: Service, rate: u8) -> Outcome
    ensures { result ≡ answered_of (with_line service (wait_rate_of service.line rate)) Done }
{
    let line = service.line;
    let next = line::wait_rate(line, rate);
    events_outcomes::answered(state::with_line(service, next), Answer::Done)
}

// 03: the delay is looked at before the rate.
fn set_rate(service: Service, delay: u8, rate: u8) -> Outcome
    ensures { result ≡ set_rate_of service delay rate }
{
    if 3 < delay {
        return refused(service, Refusal::Delay);
    }
    if 31 < rate {
        return refused(service, Refusal::Rate);
    }
    wait_rate(service, 32 * delay + rate)
}

// 05: a put to a full queue leaves it as it is.
fn store(service: Service, word: Word) -> Outcome
    ensures { result ≡ store_of service word }
{
    events_outcomes::offered(
        service,
        word,
        Answer::Stored(word),
        Answer::Refused(Refusal::Full),
    )
}

// An int 16h call.
pub fn call(service: Service, function: u8, a: u8, b: u8) -> Outcome
    ensures { result ≡ call_of service function a b }
{
    match function {
        0x00 => take::<Old>(service),
        0x01 => look::<Old>(service),
        0x10 => take::<Current>(service),
        0x11 => look::<Current>(service),
        0x02 => status(service, 0, state_flags::byte17(service)),
        0x12 => status(service, status_high(service), state_flags::byte17(service)),
        0x03 => set_rate(service, a, b),
        0x05 => store(service, Word::new(ScanCode::from(a), Ascii::from(b))),
        _ => refused(service, Refusal::Function),
    }
}
