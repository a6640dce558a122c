// The image of a service newly made, and the byte of an image that says which codes come: written, read, and changed to a set.
#![tactic(auto)]

ghost use Rattle.std.specs.Prelude.{◌≡◌, ◌/◌};
ghost use Rattle.translation.specs.Translation.{set_of};
ghost use Rattle.image.specs.Image.{new_image, on_set};
ghost use Rattle.image.specs.ImageFlags.{input_number, codes_at};

use image::{FlagBytes, Image, LineImage, PortImage, QueueImage, WordImage};
use translation::{CodeSet, Codes};

// The byte with the number of a prefix as its lower half and the codes as its upper half.
pub fn input_number(prefix: u8, codes: Codes) -> u8
    ensures { result ≡ input_number prefix codes }
{
    match codes {
        Codes::SetOne => prefix % 16,
        Codes::SetTwo => prefix % 16 + 16,
        Codes::SetTwoMarked => prefix % 16 + 32,
    }
}

pub fn codes_of(number: u8) -> Codes
    ensures { result ≡ codes_at number }
{
    match number {
        1 => Codes::SetTwo,
        2 => Codes::SetTwoMarked,
        _ => Codes::SetOne,
    }
}

// Written out, so that `image_from_service::image_of` is called from one place only, where the compiler puts its code.
#[tactic(auto, unfolding(image::specs::Image::new_image, image::specs::ImageController::new_controller_image, image::specs::ImagePort::new_port_image))]
pub fn new(set: CodeSet, bits: u8) -> Image
    ensures { result ≡ new_image set bits }
{
    let codes = translation::unmarked(set);
    Image {
        flags: FlagBytes {
            byte17: 16 * (bits % 16),
            ..FlagBytes::default()
        },
        input: input_number(0, codes),
        sum: 0,
        line: LineImage::default(),
        queue: QueueImage {
            words: [WordImage::default(); 16],
            head: 0,
            count: 0,
        },
        scanner: PortImage::default(),
        controller: image_controller::new(),
    }
}

// The set in force.
pub fn set_of(image: Image) -> CodeSet
    ensures { result ≡ set_of (codes_at (image.input / 16)) }
{
    translation::set_of(codes_of(image.input / 16))
}

// The image with the set changed, and nothing else.
#[tactic(auto, unfolding(image::specs::Image::on_set))]
pub fn on_set(set: CodeSet, image: Image) -> Image
    ensures { result ≡ on_set set image }
{
    Image {
        input: input_number(image.input, translation::unmarked(set)),
        ..image
    }
}
