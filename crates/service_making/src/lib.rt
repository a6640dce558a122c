// Services newly made, after a change of set, and resynchronised. Every value of the types has a meaning, so no call asks anything.
#![tactic(auto)]

ghost use Rattle.std.specs.Prelude.{◌≡◌, []};
ghost use Rattle.state.specs.State.{quiet_of, new_service, make_of};
ghost use Rattle.events.specs.Sets.{change_of};
ghost use Rattle.events.specs.Run.{after};
ghost use Rattle.events.specs.Resynchronised.{resynchronisation, set_in};

use answers::Answer;
use events::Outcome;
use line::Line;
use port::{Locks, Shared};
use state::{MakingRefusal, NotMade, Ports, Service};
use translation::CodeSet;

// A service with no key down at either port, no code marked, no word and a new controller.
fn quiet(set: CodeSet, locks: Locks, paused: bool, line: Line) -> Service
    ensures { result ≡ quiet_of set locks paused line }
{
    let ports = Ports {
        keyboard: port::new(),
        scanner: port::new(),
    };
    let queue = queue::empty();
    let codes = translation::unmarked(set);
    let controller = controller::new();
    Service {
        ports,
        shared: Shared { locks, paused },
        queue,
        line,
        codes,
        controller,
    }
}

#[tactic(auto, unfolding(state::specs::State::new_service))]
fn new(set: CodeSet, bits: u8) -> Service
    ensures { result ≡ new_service set bits }
{
    quiet(set, state::locks_of(bits), false, line::new())
}

// A service newly made on a set, with four lock bits; above 15 the one of bits 0, beside the refusal.
pub fn make(set: CodeSet, bits: u8) -> Result<Service, NotMade>
    ensures { result ≡ make_of set bits }
{
    if 15 < bits {
        return Err(NotMade {
            refusal: MakingRefusal::LockBits,
            service: new(set, 0),
        });
    }
    Ok(new(set, bits))
}

// A change of set, also to the same one: it closes the mark.
#[tactic(auto, unfolding(events::specs::Sets::change_of))]
pub fn change(service: Service, set: CodeSet) -> Outcome
    ensures { result ≡ change_of service set }
{
    let next = state::with_codes(service, translation::unmarked(set));
    events_outcomes::answered(next, Answer::Nothing)
}

// What the all-up run at both ports, E and R leave, without feeding them: only the locks and the set stay.
pub fn resynchronise(service: Service) -> Service
    ensures { result ≡ after service (resynchronisation [] (set_in service)) }
{
    let set = translation::set_of(service.codes);
    quiet(set, service.shared.locks, false, line::new())
}
