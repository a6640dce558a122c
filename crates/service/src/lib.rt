// The service after one event of any kind, or one frame. Every value of the types has a meaning, so no call asks anything.
#![tactic(auto)]

ghost use Rattle.std.specs.Prelude.{◌≡◌};
ghost use Rattle.events.specs.Step.{empty_of, step_of};
ghost use Rattle.events.specs.Frames.{frame_step_of};

use answers::{Answer, Refusal};
use events::{Event, Outcome};
use state::{Device, Service};

// The queue is emptied.
#[tactic(auto, unfolding(events::specs::Step::empty_of))]
pub fn empty(service: Service) -> Outcome
    ensures { result ≡ empty_of service }
{
    let next = state::with_queue(service, queue::empty());
    events_outcomes::answered(next, Answer::Done)
}

// One event. Bytes of both devices go one way, so that the decoder is called from one place, where the compiler puts its code.
#[tactic(auto, unfolding(events::specs::Step::step_of))]
pub fn step(service: Service, event: Event) -> Outcome
    ensures { result ≡ step_of service event }
{
    let (device, byte) = match event {
        Event::Key(byte) => (Device::Keyboard, byte),
        Event::Scan(byte) => (Device::Scanner, byte),
        Event::Call(function, a, b) => return events_functions::call(service, function, a, b),
        Event::Poll => return events_commands::poll(service),
        Event::TimeOut => return events_commands::time_out(service),
        Event::Empty => return empty(service),
        Event::Restart => return events_commands::restart(service),
    };
    events_keyboard::byte(device, service, byte)
}

// One frame: the event of the byte that it carries, or refused and nothing fed.
#[tactic(auto, unfolding(events::specs::Frames::frame_step_of))]
pub fn frame(service: Service, frame: u16) -> Outcome
    ensures { result ≡ frame_step_of service frame }
{
    match frame::read(frame) {
        Ok(byte) => step(service, Event::Key(byte)),
        Err(fault) => { events_outcomes::answered(service, Answer::Refused(Refusal::Frame(fault))) }
    }
}
