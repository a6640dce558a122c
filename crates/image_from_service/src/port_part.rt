// The port of a scanner to numbers.
ghost use Rattle.std.specs.Prelude.{◌≡◌};
ghost use Rattle.image.specs.ImagePort.{sides_number, locks_held_number, port_image};

use crate::flags_part;
use image::PortImage;
use port::{Held, Port, Sides};

#[tactic(auto, unfolding(image::specs::ImagePort::sides_number))]
fn sides_number(sides: Sides) -> u8
    ensures { result ≡ sides_number sides }
{
    bits::byte(
        sides.right,
        sides.left,
        false,
        false,
        false,
        false,
        false,
        false,
    )
}

#[tactic(auto, unfolding(image::specs::ImagePort::locks_held_number))]
fn locks_held_number(held: Held) -> u8
    ensures { result ≡ locks_held_number held }
{
    bits::byte(
        held.scroll,
        held.num,
        held.caps,
        false,
        false,
        false,
        false,
        false,
    )
}

#[tactic(auto, unfolding(image::specs::ImagePort::port_image))]
pub fn image_of(port: Port) -> PortImage
    ensures { result ≡ port_image port }
{
    let modifiers = port.modifiers;
    let held = port.held;
    PortImage {
        prefix: flags_part::prefix_number(port.prefix),
        sum: port.sum,
        shift: sides_number(modifiers.shift),
        ctrl: sides_number(modifiers.ctrl),
        alt: sides_number(modifiers.alt),
        locks: locks_held_number(held),
        insert: held.insert as u8,
        sysreq: held.sysreq as u8,
    }
}
