// Numbers to the port of a scanner.
ghost use Rattle.std.specs.Prelude.{◌≡◌};
ghost use Rattle.image.specs.ImagePort.{sides_at, port_at};

use crate::flags_part;
use image::PortImage;
use port::{Held, Modifiers, Port, Sides};

#[tactic(auto, unfolding(image::specs::ImagePort::sides_at))]
fn sides_of(number: u8) -> Sides
    ensures { result ≡ sides_at number }
{
    Sides {
        left: number / 2 % 2 == 1,
        right: number % 2 == 1,
    }
}

#[tactic(auto, unfolding(image::specs::ImagePort::port_at))]
pub fn port_of(image: PortImage) -> Port
    ensures { result ≡ port_at image }
{
    let locks = image.locks;
    Port {
        prefix: flags_part::prefix_of(image.prefix),
        modifiers: Modifiers {
            shift: sides_of(image.shift),
            ctrl: sides_of(image.ctrl),
            alt: sides_of(image.alt),
        },
        held: Held {
            scroll: locks % 2 == 1,
            num: locks / 2 % 2 == 1,
            caps: locks / 4 % 2 == 1,
            insert: image.insert != 0,
            sysreq: image.sysreq != 0,
        },
        sum: image.sum,
    }
}
