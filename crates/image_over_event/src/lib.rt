// The calls that go over an event: a report, a frame and a change of set. Each runs the event on a copy, so that its code stands in the library once.
#![tactic(auto)]

ghost use Rattle.std.specs.Prelude.{◌≡◌};
ghost use Rattle.report.specs.Report.{report_from};
ghost use Rattle.image_calls.specs.Exports.{seen, frame_to, change_to, report_to, written_to};

use answers::Refusal;
use events::Event;
use image::Image;
use image_calls::{Changed, Refused, Shown, Tagged};
use report::Report;
use translation::CodeSet;

fn report_of(tag: u8, shown: Shown) -> Report
    ensures { result ≡ report_from tag (seen shown) }
{
    Report {
        tag,
        ans: shown.ans,
        word: shown.word,
        byte17: shown.byte17,
        byte18: shown.byte18,
        byte96: shown.byte96,
        byte97: shown.byte97,
        sent: shown.sent,
    }
}

pub fn report(image: Image, tagged: Tagged, buffer: &mut [u8]) -> Refused
    ensures { (result ≡ report_to image tagged buffer.old) × (buffer.new ≡ written_to image tagged buffer.old) }
{
    if image_reading::recognise(tagged).is_none() {
        return Refused { image, refusal: 6 };
    }
    if buffer.len() < report::LENGTH {
        return Refused { image, refusal: 9 };
    }
    let changed = image_lent::event_on_copy(image, tagged);
    let shown = changed.shown;
    let after = changed.image;
    report_text::write(report_of(tagged.tag, shown), buffer);
    Refused {
        image: after,
        refusal: report_call::refusal(shown.ans),
    }
}

// The event of the byte that a frame carries, or refused and nothing fed.
pub fn frame(image: Image, frame: u16) -> Changed
    ensures { result ≡ frame_to image frame }
{
    match frame::read(frame) {
        Ok(byte) => image_lent::event_on_copy(image, image_reading::tagged_of(Event::Key(byte))),
        Err(fault) => image_lent::refused(image, Refusal::Frame(fault)),
    }
}

pub fn change(set: CodeSet, image: Image) -> Changed
    ensures { result ≡ change_to set image }
{
    image_lent::standing_anew(image_making::on_set(set, image))
}
