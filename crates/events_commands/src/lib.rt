// The line's events: polls, replies, time-outs and the restart.
#![tactic(auto)]

ghost use Rattle.std.specs.Prelude.{◌≡◌};
ghost use Rattle.events.specs.Commands.{led_value, line_answer, on_line, poll_of, acknowledge_of, resend_of, time_out_of, restart_of};

use answers::Answer;
use events::Outcome;
use port::Locks;
use state::Service;

#[tactic(auto, unfolding(events::specs::Commands::led_value))]
fn led_value(locks: Locks) -> u8
    ensures { result ≡ led_value locks }
{
    bits::byte(
        locks.scroll,
        locks.num,
        locks.caps,
        false,
        false,
        false,
        false,
        false,
    )
}

// The service's answer for the line's. What a taken reply answers is the caller's to say.
fn answer_for(answer: line::Answer, taken: Answer) -> Answer
    ensures { result ≡ line_answer answer taken }
{
    match answer {
        line::Answer::Send(byte) => Answer::Send(byte),
        line::Answer::Quiet => Answer::Quiet,
        line::Answer::Taken => taken,
        line::Answer::Ignored => Answer::Ignored,
        line::Answer::GivenUp => Answer::GivenUp,
    }
}

#[tactic(auto, unfolding(events::specs::Commands::on_line))]
fn apply(service: Service, outcome: line::Outcome, taken: Answer) -> Outcome
    ensures { result ≡ on_line service outcome taken }
{
    Outcome {
        service: state::with_line(service, outcome.line),
        answer: answer_for(outcome.answer, taken),
        sent: outcome.sent,
    }
}

// A poll for a byte to send.
#[tactic(auto, unfolding(events::specs::Commands::poll_of))]
pub fn poll(service: Service) -> Outcome
    ensures { result ≡ poll_of service }
{
    let led = led_value(service.shared.locks);
    apply(
        service,
        line_polling::poll(service.line, led),
        Answer::Taken,
    )
}

// The reply FA.
#[tactic(auto, unfolding(events::specs::Commands::acknowledge_of))]
pub fn acknowledge(service: Service) -> Outcome
    ensures { result ≡ acknowledge_of service }
{
    apply(
        service,
        line_replies::acknowledge(service.line),
        Answer::Taken,
    )
}

// The reply FE.
#[tactic(auto, unfolding(events::specs::Commands::resend_of))]
pub fn resend(service: Service) -> Outcome
    ensures { result ≡ resend_of service }
{
    apply(service, line_replies::resend(service.line), Answer::Taken)
}

// A reply timed out.
#[tactic(auto, unfolding(events::specs::Commands::time_out_of))]
pub fn time_out(service: Service) -> Outcome
    ensures { result ≡ time_out_of service }
{
    apply(service, line_replies::time_out(service.line), Answer::Done)
}

// The line is restarted, and the controller made new; the command that is dropped shows no count.
#[tactic(auto, unfolding(events::specs::Commands::restart_of))]
pub fn restart(service: Service) -> Outcome
    ensures { result ≡ restart_of service }
{
    let renewed = Service {
        line: line::new(),
        controller: controller::new(),
        ..service
    };
    Outcome {
        service: renewed,
        answer: Answer::Done,
        sent: 0,
    }
}
