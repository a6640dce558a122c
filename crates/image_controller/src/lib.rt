// The controller to numbers and back, and an image with another controller.
#![tactic(auto)]

ghost use Rattle.std.specs.Prelude.{◌≡◌};
ghost use Rattle.image.specs.Image.{on_controller};
ghost use Rattle.image.specs.ImageController.{turned_over, buffer_number, held_in, buffer_at, controller_image, controller_at, new_controller_image};

use controller::{Buffer, Controller};
use image::{ControllerImage, Image};

fn turned_over(command: u8) -> u8
    ensures { result ≡ turned_over command }
{
    if command % 2 == 1 {
        return command - 1;
    }
    command + 1
}

fn buffer_number(buffer: Buffer) -> u8
    ensures { result ≡ buffer_number buffer }
{
    match buffer {
        Buffer::Empty(_) => 0,
        Buffer::Key(_) => 1,
        Buffer::Answer(_) => 2,
    }
}

fn held_in(buffer: Buffer) -> u8
    ensures { result ≡ held_in buffer }
{
    match buffer {
        Buffer::Empty(byte) | Buffer::Key(byte) | Buffer::Answer(byte) => byte,
    }
}

fn buffer_of(number: u8, byte: u8) -> Buffer
    ensures { result ≡ buffer_at number byte }
{
    match number {
        1 => Buffer::Key(byte),
        2 => Buffer::Answer(byte),
        _ => Buffer::Empty(byte),
    }
}

#[tactic(auto, unfolding(image::specs::ImageController::controller_image))]
pub fn image_of(controller: Controller) -> ControllerImage
    ensures { result ≡ controller_image controller }
{
    let buffer = controller.buffer;
    ControllerImage {
        buffer: buffer_number(buffer),
        byte: held_in(buffer),
        command: turned_over(controller.command),
        awaiting: controller.awaiting as u8,
        commanded: controller.commanded as u8,
        spare: [0; 3],
    }
}

#[tactic(auto, unfolding(image::specs::ImageController::controller_at))]
pub fn controller_of(image: ControllerImage) -> Controller
    ensures { result ≡ controller_at image }
{
    Controller {
        buffer: buffer_of(image.buffer, image.byte),
        command: turned_over(image.command),
        awaiting: image.awaiting != 0,
        commanded: image.commanded != 0,
    }
}

// A new controller.
#[tactic(auto, unfolding(image::specs::ImageController::new_controller_image))]
pub fn new() -> ControllerImage
    ensures { result ≡ new_controller_image }
{
    ControllerImage {
        buffer: 0,
        byte: 0,
        command: 0,
        awaiting: 0,
        commanded: 0,
        spare: [0; 3],
    }
}

// The numbers of the controller that any numbers mean, without making it.
pub fn in_range(image: ControllerImage) -> ControllerImage
    ensures { result ≡ controller_image (controller_at image) }
{
    let is_other = (image.buffer != 1) & (image.buffer != 2);
    ControllerImage {
        buffer: if is_other { 0 } else { image.buffer },
        awaiting: (image.awaiting != 0) as u8,
        commanded: (image.commanded != 0) as u8,
        spare: [0; 3],
        ..image
    }
}

// The image with another controller, and nothing else changed.
#[tactic(auto, unfolding(image::specs::Image::on_controller))]
pub fn on_controller(controller: ControllerImage, image: Image) -> Image
    ensures { result ≡ on_controller controller image }
{
    Image {
        controller,
        ..image
    }
}
