// Services to images.
#![tactic(auto)]

ghost use Rattle.std.specs.Prelude.{◌≡◌};
ghost use Rattle.image.specs.Image.{image_of, on_controller};

use image::{ControllerImage, Image};
use state::Service;

mod flags_part;
mod line_part;
mod port_part;
mod queue_part;

// The controller's numbers are handed over: no event makes them of the service.
#[tactic(auto, unfolding(image::specs::Image::image_of, image::specs::Image::on_controller))]
pub fn image_of(service: Service, controller: ControllerImage) -> Image
    ensures { result ≡ on_controller controller (image_of service) }
{
    let keyboard = service.ports.keyboard;
    let prefix = flags_part::prefix_number(keyboard.prefix);
    Image {
        flags: flags_part::flag_bytes(service),
        input: image_making::input_number(prefix, service.codes),
        sum: keyboard.sum,
        line: line_part::image_of(service.line),
        queue: queue_part::image_of(service.queue),
        scanner: port_part::image_of(service.ports.scanner),
        controller,
    }
}
