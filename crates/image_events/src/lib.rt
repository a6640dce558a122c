// An event on an image, by value. A refused event leaves every number of the image.
#![tactic(auto)]

ghost use Rattle.std.specs.Prelude.{◌≡◌};
ghost use Rattle.image_calls.specs.Exports.{shown_with, controller_after, event_run, ans_in, ran_of, event_to};
ghost use Rattle.events.specs.ControllerLaws.{is_restart};

use answers::Answer;
use events::Event;
use image::{ControllerImage, FlagBytes, Image};
use image_calls::{Changed, Ran, Shown, Tagged};
use state::Service;

fn shown_with(flags: FlagBytes, ans: u8, word: u16, sent: u8) -> Shown
    ensures { result ≡ shown_with flags ans word sent }
{
    Shown {
        word,
        ans,
        sent,
        byte17: flags.byte17,
        byte18: flags.byte18,
        byte96: flags.byte96,
        byte97: flags.byte97,
    }
}

// For an unknown tag a call that is refused, since it too changes nothing: then every event takes one way through the code.
fn event_in(event: Option<Event>) -> Event
    ensures { result ≡ event_run event }
{
    event.unwrap_or(Event::Call(0xFF, 0, 0))
}

fn ans_of(answer: Answer, unknown: bool) -> u8
    ensures { result ≡ ans_in answer unknown }
{
    if unknown { 0x86 } else { answer.number() }
}

fn run(service: Service, event: Option<Event>) -> Ran
    ensures { result ≡ ran_of service event }
{
    let outcome = service::step(service, event_in(event));
    let after = outcome.service;
    let answer = outcome.answer;
    Ran {
        service: after,
        ans: ans_of(answer, event.is_none()),
        word: answer.word(),
        sent: outcome.sent,
    }
}

fn is_restart(event: Event) -> bool
    ensures { result ≡ is_restart event }
{
    matches!(event, Event::Restart)
}

// The controller's numbers after an event, which looks at none of them.
fn controller_after(event: Event, controller: ControllerImage) -> ControllerImage
    ensures { result ≡ controller_after event controller }
{
    if is_restart(event) {
        return image_controller::new();
    }
    image_controller::in_range(controller)
}

// The parts of this function are called from here only, where the compiler puts their code: a service that is passed on in memory costs
// more than all that an event does.
pub fn event(image: Image, tagged: Tagged) -> Changed
    ensures { result ≡ event_to image tagged }
{
    let service = image_to_service::service_of(image);
    let event = image_reading::recognise(tagged);
    let ran = run(service, event);
    let after = ran.service;
    let controller = controller_after(event_in(event), image.controller);
    let next = image_from_service::image_of(after, controller);
    let flags = next.flags;
    let shown = shown_with(flags, ran.ans, ran.word, ran.sent);
    if 0x7F < shown.ans {
        return Changed { image, shown };
    }
    Changed { image: next, shown }
}
