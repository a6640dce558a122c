// A port event at the service: the controller responds, and a key that is read at 60 is fed as the event of its byte.
#![tactic(auto)]

ghost use Rattle.std.specs.Prelude.{◌≡◌};
ghost use Rattle.events.specs.Controller.{on_response, port_step_of};

use answers::{Answer, Refusal};
use controller::{PortEvent, Response};
use events::{Event, Outcome, PortOutcome};
use state::Service;

// What comes of a response: only a key does anything, and only a refusal has something to tell.
#[tactic(auto, unfolding(events::specs::Controller::on_response))]
fn on_response(service: Service, response: Response) -> Outcome
    ensures { result ≡ on_response service response }
{
    match response {
        Response::Accepted | Response::Interrupt | Response::Byte(_) => {
            events_outcomes::answered(service, Answer::Nothing)
        }
        Response::Key(byte) => service::step(service, Event::Key(byte)),
        Response::Refused(refusal) => {
            events_outcomes::answered(service, Answer::Refused(Refusal::Port(refusal)))
        }
    }
}

#[tactic(auto, unfolding(events::specs::Controller::port_step_of))]
pub fn port_event(service: Service, event: PortEvent) -> PortOutcome
    ensures { result ≡ port_step_of service event }
{
    let responded = controller_events::respond(service.controller, event);
    let next = state::with_controller(service, responded.controller);
    PortOutcome {
        outcome: on_response(next, responded.response),
        response: responded.response,
    }
}
