// The call that runs an event and writes its report to a lent buffer.
#![tactic(auto)]

ghost use Rattle.std.specs.Prelude.{◌≡◌, OnErr};
ghost use Rattle.report.specs.Reported.{refusal_in, told_by, reported_of, buffer_of};

use answers::Answer;
use events::Event;
use report::{HandedBack, ReportRefusal};
use state::Service;

// The number of the refusal that an ans shows, 0 if it shows none.
pub fn refusal(ans: u8) -> u8
    ensures { result ≡ refusal_in ans }
{
    if ans < 0x80 {
        return 0;
    }
    ans - 0x80
}

// Runs an event and writes its report to the start of the buffer; a buffer that is too short is refused before the event runs. A refusal leaves the
// service as it was.
pub fn report_event(service: Service, event: Event, buffer: &mut [u8]) -> HandedBack
    ensures value { told_by result ≡ reported_of service event buffer.old }
    ensures refused { OnErr result.told (result.service ≡ service) }
    ensures buffer_after { buffer.new ≡ buffer_of service event buffer.old }
{
    if buffer.len() < report::LENGTH {
        return HandedBack {
            service,
            told: Err(ReportRefusal::ShortBuffer),
        };
    }
    let outcome = service::step(service, event);
    let report = report::report_of(event, outcome);
    report_text::write(report, buffer);
    let service = outcome.service;
    match outcome.answer {
        Answer::Refused(refusal) => HandedBack {
            service,
            told: Err(ReportRefusal::Call(refusal)),
        },
        _ => HandedBack {
            service,
            told: Ok(()),
        },
    }
}
