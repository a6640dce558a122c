// The service lent and changed in place: what each call leaves in it, and what it returns.
#![tactic(auto)]

ghost use Rattle.std.specs.Prelude.{◌≡◌, OnErr};
ghost use Rattle.state.specs.State.{making_refusal_number};
ghost use Rattle.report.specs.Reported.{report_refusal_number, number_told, told_by, buffer_of};
ghost use Rattle.lent_calls.specs.Lent.{made_in, answered_by, event_in, frame_in, change_in, port_in, tells_of, reported_in, resynchronised_in};

use answers::Answer;
use controller::PortEvent;
use events::{Event, Outcome};
use lent_calls::{Answered, PortAnswered, Stepped};
use report::{HandedBack, ReportRefusal};
use state::{MakingRefusal, Service};
use translation::CodeSet;

// What an outcome leaves takes the place of the service; its answer and its count are told.
fn stored(service: &mut Service, outcome: Outcome) -> Answered
    ensures { (service.new ≡ outcome.service) × (result ≡ answered_by outcome) }
{
    *service = outcome.service;
    Answered {
        answer: outcome.answer,
        sent: outcome.sent,
    }
}

// The service newly made on a set with four lock bits; a refusal leaves it as it was.
#[tactic(auto, unfolding(lent_calls::specs::Lent::made_in))]
pub fn make(service: &mut Service, set: CodeSet, bits: u8) -> Result<(), MakingRefusal>
    ensures value { (service.new ≡ (made_in set service.old bits).service)
        × (number_told making_refusal_number result ≡ (made_in set service.old bits).refusal) }
    ensures refused { OnErr result (service.new ≡ service.old) }
{
    *service = service_making::make(set, bits).map_err(|not_made| not_made.refusal)?;
    Ok(())
}

// One event.
#[tactic(auto, unfolding(lent_calls::specs::Lent::event_in))]
pub fn event(service: &mut Service, event: Event) -> Answered
    ensures { (service.new ≡ (event_in service.old event).service)
        × (result ≡ (event_in service.old event).answered) }
{
    let outcome = service::step(*service, event);
    stored(service, outcome)
}

// One frame.
#[tactic(auto, unfolding(lent_calls::specs::Lent::frame_in))]
pub fn frame(service: &mut Service, frame: u16) -> Answered
    ensures { (service.new ≡ (frame_in service.old frame).service)
        × (result ≡ (frame_in service.old frame).answered) }
{
    let outcome = service::frame(*service, frame);
    stored(service, outcome)
}

// A change of set, also to the same one.
#[tactic(auto, unfolding(lent_calls::specs::Lent::change_in))]
pub fn change(service: &mut Service, set: CodeSet) -> Answered
    ensures { (service.new ≡ (change_in service.old set).service)
        × (result ≡ (change_in service.old set).answered) }
{
    let outcome = service_making::change(*service, set);
    stored(service, outcome)
}

// One port event: a read of 60 feeds the key that it gives.
#[tactic(auto, unfolding(lent_calls::specs::Lent::port_in))]
pub fn port_event(service: &mut Service, event: PortEvent) -> PortAnswered
    ensures { (service.new ≡ (port_in service.old event).service)
        × (result ≡ (port_in service.old event).answered) }
{
    let step = service_controller::port_event(*service, event);
    PortAnswered {
        answered: stored(service, step.outcome),
        response: step.response,
    }
}

// One event, and its report at the start of the buffer; or the buffer is too short, and nothing is run or written. A refusal leaves the service as it
// was.
#[tactic(auto, unfolding(lent_calls::specs::Lent::reported_in))]
pub fn report(service: &mut Service, event: Event, buffer: &mut [u8]) -> Result<(), ReportRefusal>
    ensures value { (service.new ≡ (reported_in service.old event buffer.old).service)
        × (number_told report_refusal_number result
        ≡ (reported_in service.old event buffer.old).refusal) }
    ensures refused { OnErr result (service.new ≡ service.old) }
    ensures buffer_after { buffer.new ≡ buffer_of service.old event buffer.old }
{
    let back = report_call::report_event(*service, event, buffer);
    *service = back.service;
    back.told
}

// As if the all-up run at both ports, E and R were fed; answered as this R is.
#[tactic(auto, unfolding(lent_calls::specs::Lent::resynchronised_in))]
pub fn resynchronise(service: &mut Service) -> Answered
    ensures { (service.new ≡ (resynchronised_in service.old).service)
        × (result ≡ (resynchronised_in service.old).answered) }
{
    *service = service_making::resynchronise(*service);
    Answered {
        answer: Answer::Done,
        sent: 0,
    }
}

// For whoever holds the service by value: a copy of it is lent, and handed back as the call left it.
pub fn event_on_copy(service: Service, event: Event) -> Stepped
    ensures { result ≡ event_in service event }
{
    let mut copy = service;
    let answered = crate::event(&mut copy, event);
    Stepped {
        service: copy,
        answered,
    }
}

#[tactic(auto, unfolding(lent_calls::specs::Lent::reported_in))]
pub fn report_on_copy(service: Service, event: Event, buffer: &mut [u8]) -> HandedBack
    ensures value { tells_of (told_by result) ≡ reported_in service event buffer.old }
    ensures refused { OnErr result.told (result.service ≡ service) }
    ensures buffer_after { buffer.new ≡ buffer_of service event buffer.old }
{
    let mut next = service;
    let told = crate::report(&mut next, event, buffer);
    HandedBack {
        service: next,
        told,
    }
}
