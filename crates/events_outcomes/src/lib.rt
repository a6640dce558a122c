// Outcomes that several kinds of event share.
#![tactic(auto)]

ghost use Rattle.std.specs.Prelude.{◌≡◌};
ghost use Rattle.events.specs.Outcomes.{answered_of, offered_of};

use answers::Answer;
use events::Outcome;
use queue::Full;
use state::Service;
use word::Word;

// An event that leaves the line's command alone: its count goes on being shown.
#[tactic(auto, unfolding(events::specs::Outcomes::answered_of))]
pub fn answered(service: Service, answer: Answer) -> Outcome
    ensures { result ≡ answered_of service answer }
{
    Outcome {
        service,
        answer,
        sent: line::sent(service.line),
    }
}

// A word offered to the queue: `kept` is answered where it is put, `full` where there is no room.
pub fn offered(service: Service, word: Word, kept: Answer, full: Answer) -> Outcome
    ensures { result ≡ offered_of service word kept full }
{
    let mut next = service;
    match next.queue.put(word) {
        Ok(()) => answered(next, kept),
        Err(Full) => answered(next, full),
    }
}
