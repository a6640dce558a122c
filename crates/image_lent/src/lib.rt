// An event on an image that is lent, or on a copy of one; and what is shown where no event has anything to tell.
#![tactic(auto)]

ghost use Rattle.std.specs.Prelude.{◌≡◌};
ghost use Rattle.answers.specs.Answers.{refusal_number};
ghost use Rattle.image_calls.specs.Exports.{with_answer, answered_nothing, refused_in, written, event_to, flags_to};

use answers::{Answer, Refusal};
use events::Event;
use image::{FlagBytes, Image};
use image_calls::{Changed, Shown, Tagged};

// Every event that runs from C runs here.
pub fn event(image: &mut Image, event: Tagged) -> Shown
    ensures { (image.new ≡ (event_to image.old event).image)
        × (result ≡ (event_to image.old event).shown) }
{
    let changed = image_events::event(*image, event);
    *image = changed.image;
    changed.shown
}

pub fn event_on_copy(image: Image, tagged: Tagged) -> Changed
    ensures { result ≡ event_to image tagged }
{
    let mut copy = image;
    let shown = event(&mut copy, tagged);
    Changed { image: copy, shown }
}

// What an unknown tag shows: the flag bytes and the count of bytes sent as they stand.
fn standing(image: Image) -> Shown
    ensures { result ≡ (refused_in image 6).shown }
{
    let changed = event_on_copy(image, Tagged::default());
    changed.shown
}

#[tactic(auto, unfolding(image_calls::specs::Exports::refused_in))]
pub fn flag_bytes(image: Image) -> FlagBytes
    ensures { result ≡ flags_to image }
{
    let shown = standing(image);
    FlagBytes {
        byte17: shown.byte17,
        byte18: shown.byte18,
        byte96: shown.byte96,
        byte97: shown.byte97,
    }
}

// What is shown with another answer, and without a word.
fn with_answer(shown: Shown, ans: u8) -> Shown
    ensures { result ≡ with_answer shown ans }
{
    Shown {
        ans,
        word: 0,
        ..shown
    }
}

// Turned away: the image as it was, and what stands.
#[tactic(auto, unfolding(image_calls::specs::Exports::refused_in))]
pub fn refused(image: Image, refusal: Refusal) -> Changed
    ensures { result ≡ refused_in image (refusal_number refusal) }
{
    let ans = Answer::Refused(refusal).number();
    let shown = with_answer(standing(image), ans);
    Changed { image, shown }
}

// With nothing to tell: a status call changes nothing, and writes the image anew.
pub fn standing_anew(image: Image) -> Changed
    ensures { result ≡ answered_nothing (event_to image (written (Event.Call 0x02 0 0))) }
{
    let status = image_reading::tagged_of(Event::Call(0x02, 0, 0));
    let changed = event_on_copy(image, status);
    let after = changed.image;
    let shown = changed.shown;
    Changed {
        image: after,
        shown: with_answer(shown, Answer::Nothing.number()),
    }
}
