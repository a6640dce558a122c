// An image made on either set, and one resynchronised, by value.
#![tactic(auto)]

ghost use Rattle.std.specs.Prelude.{◌≡◌};
ghost use Rattle.state.specs.State.{make_of};
ghost use Rattle.image_calls.specs.Exports.{image_made, resynchronised_to};

use answers::Answer;
use image::Image;
use image_calls::{Changed, Shown};
use state::MakingRefusal;
use translation::CodeSet;

// A service newly made on a set with four lock bits, as an image.
pub fn make(set: CodeSet, bits: u8) -> Result<Image, MakingRefusal>
    ensures { result ≡ image_made (make_of set bits) }
{
    if 15 < bits {
        return Err(MakingRefusal::LockBits);
    }
    Ok(image_making::new(set, bits))
}

// As the all-up run at both ports, E and R leave it, with what this R shows: new, but for the set and the lock bits, the upper half of byte 17.
pub fn resynchronise(image: Image) -> Changed
    ensures { result ≡ resynchronised_to image }
{
    let set = image_making::set_of(image);
    let fresh = image_making::new(set, image.flags.byte17 / 16);
    let flags = fresh.flags;
    Changed {
        image: fresh,
        shown: Shown {
            word: 0,
            ans: Answer::Done.number(),
            sent: 0,
            byte17: flags.byte17,
            byte18: flags.byte18,
            byte96: flags.byte96,
            byte97: flags.byte97,
        },
    }
}
