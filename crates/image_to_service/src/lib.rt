// Images to the services that they mean.
#![tactic(auto)]

ghost use Rattle.std.specs.Prelude.{◌≡◌};
ghost use Rattle.image.specs.Image.{keyboard_at, bare_service_of};

use image::Image;
use port::Port;
use state::{Ports, Service};

mod flags_part;
mod line_part;
mod port_part;
mod queue_part;

#[tactic(auto, unfolding(image::specs::Image::keyboard_at))]
fn keyboard_of(image: Image) -> Port
    ensures { result ≡ keyboard_at image }
{
    let flags = image.flags;
    Port {
        prefix: flags_part::prefix_of(image.input % 16),
        modifiers: flags_part::modifiers_of(flags),
        held: flags_part::held_of(flags.byte18),
        sum: image.sum,
    }
}

// With a new controller: no event looks at it, so an event on an image leaves the controller's numbers where they are.
#[tactic(auto, unfolding(image::specs::Image::bare_service_of, image::specs::Image::service_of))]
pub fn service_of(image: Image) -> Service
    ensures { result ≡ bare_service_of image }
{
    let flags = image.flags;
    Service {
        ports: Ports {
            keyboard: keyboard_of(image),
            scanner: port_part::port_of(image.scanner),
        },
        shared: flags_part::shared_of(flags),
        queue: queue_part::queue_of(image.queue),
        line: line_part::line_of(image.line, flags.byte97),
        codes: image_making::codes_of(image.input / 16),
        controller: controller::new(),
    }
}
