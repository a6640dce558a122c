// The calls for C and Rust: thin calls over the calls by value, on an image that the caller lends.
#![tactic(auto)]

ghost use Rattle.std.specs.Prelude.{◌≡◌};
ghost use Rattle.frame.specs.Frame.{frame_of};
ghost use Rattle.image_calls.specs.Reads.{read_to};
ghost use Rattle.image_calls.specs.Exports.{event_to, frame_to, make_to, change_to, report_to, written_to, flags_to, resynchronised_to};
ghost use Rattle.image_calls.specs.PortCalls.{port_to};

use controller::PortEvent;
use image::{FlagBytes, Image};
use image_calls::{PortShown, Reading, Shown, Tagged};
use translation::CodeSet;

fn make(set: CodeSet, image: &mut Image, bits: u8) -> u8
    ensures { (image.new ≡ (make_to set image.old bits).image) × (result ≡ (make_to set image.old bits).refusal) }
{
    match image_renewal::make(set, bits) {
        Ok(made) => {
            *image = made;
            0
        }
        Err(refusal) => refusal.number(),
    }
}

// A service newly made on set 1 with four lock bits, or refusal 1.
#[unsafe(no_mangle)]
pub extern "C" fn xiquepazo_make(image: &mut Image, bits: u8) -> u8
    ensures { (image.new ≡ (make_to CodeSet.One image.old bits).image)
        × (result ≡ (make_to CodeSet.One image.old bits).refusal) }
{
    make(CodeSet::One, image, bits)
}

// The same on set 2.
#[unsafe(no_mangle)]
pub extern "C" fn xiquepazo_make_set_2(image: &mut Image, bits: u8) -> u8
    ensures { (image.new ≡ (make_to CodeSet.Two image.old bits).image)
        × (result ≡ (make_to CodeSet.Two image.old bits).refusal) }
{
    make(CodeSet::Two, image, bits)
}

fn change(set: CodeSet, image: &mut Image) -> Shown
    ensures { (image.new ≡ (change_to set image.old).image) × (result ≡ (change_to set image.old).shown) }
{
    let changed = image_over_event::change(set, *image);
    *image = changed.image;
    changed.shown
}

// A change to set 1, also from set 1.
#[unsafe(no_mangle)]
pub extern "C" fn xiquepazo_to_set_1(image: &mut Image) -> Shown
    ensures { (image.new ≡ (change_to CodeSet.One image.old).image)
        × (result ≡ (change_to CodeSet.One image.old).shown) }
{
    change(CodeSet::One, image)
}

// A change to set 2, also from set 2: it closes the mark.
#[unsafe(no_mangle)]
pub extern "C" fn xiquepazo_to_set_2(image: &mut Image) -> Shown
    ensures { (image.new ≡ (change_to CodeSet.Two image.old).image)
        × (result ≡ (change_to CodeSet.Two image.old).shown) }
{
    change(CodeSet::Two, image)
}

// Any event, by its capital; or refusal 6.
#[unsafe(no_mangle)]
pub extern "C" fn xiquepazo_event(image: &mut Image, event: Tagged) -> Shown
    ensures { (image.new ≡ (event_to image.old event).image)
        × (result ≡ (event_to image.old event).shown) }
{
    image_lent::event(image, event)
}

// Any event, and its report at the start of the buffer; or refusal 6 or 9, and nothing is run or written.
#[unsafe(no_mangle)]
pub extern "C" fn xiquepazo_report(image: &mut Image, event: Tagged, buffer: &mut [u8]) -> u8
    ensures { (image.new ≡ (report_to image.old event buffer.old).image)
        × (result ≡ (report_to image.old event buffer.old).refusal)
        × (buffer.new ≡ written_to image.old event buffer.old) }
{
    let refused = image_over_event::report(*image, event, buffer);
    *image = refused.image;
    refused.refusal
}

// As if the all-up run at both ports, E and R were fed; shows what this R shows.
#[unsafe(no_mangle)]
pub extern "C" fn xiquepazo_resynchronise(image: &mut Image) -> Shown
    ensures { (image.new ≡ (resynchronised_to image.old).image)
        × (result ≡ (resynchronised_to image.old).shown) }
{
    let changed = image_renewal::resynchronise(*image);
    *image = changed.image;
    changed.shown
}

// The flag bytes as they stand.
#[unsafe(no_mangle)]
pub extern "C" fn xiquepazo_flags(image: &Image) -> FlagBytes
    ensures { result ≡ flags_to image.now }
{
    image_lent::flag_bytes(*image)
}

// The event at a start in a pack, where the next begins, and refusal 6, 7, 8 or 10.
#[unsafe(no_mangle)]
pub extern "C" fn xiquepazo_read(pack: &[u8], start: usize) -> Reading
    ensures { result ≡ read_to pack.now start }
{
    image_reading::read_at(pack, start)
}

// A frame from the keyboard; or refusal 11, 12 or 13, and nothing is fed.
#[unsafe(no_mangle)]
pub extern "C" fn xiquepazo_frame(image: &mut Image, frame: u16) -> Shown
    ensures { (image.new ≡ (frame_to image.old frame).image)
        × (result ≡ (frame_to image.old frame).shown) }
{
    let changed = image_over_event::frame(*image, frame);
    *image = changed.image;
    changed.shown
}

// The frame of a byte.
#[unsafe(no_mangle)]
pub extern "C" fn xiquepazo_frame_of(byte: u8) -> u16
    ensures { result ≡ frame_of byte }
{
    frame::write(byte)
}

fn port_event(image: &mut Image, event: PortEvent) -> PortShown
    ensures { (image.new ≡ (port_to image.old event).image) × (result ≡ (port_to image.old event).shown) }
{
    let changed = image_ports::port_event(*image, event);
    *image = changed.image;
    changed.shown
}

// A byte from the keyboard reaches the controller; or refusal 14.
#[unsafe(no_mangle)]
pub extern "C" fn xiquepazo_from_keyboard(image: &mut Image, byte: u8) -> PortShown
    ensures { (image.new ≡ (port_to image.old (PortEvent.FromKeyboard byte)).image)
        × (result ≡ (port_to image.old (PortEvent.FromKeyboard byte)).shown) }
{
    port_event(image, PortEvent::FromKeyboard(byte))
}

// A read of port 60, which feeds the key that it gives.
#[unsafe(no_mangle)]
pub extern "C" fn xiquepazo_read_60(image: &mut Image) -> PortShown
    ensures { (image.new ≡ (port_to image.old PortEvent.Read60).image)
        × (result ≡ (port_to image.old PortEvent.Read60).shown) }
{
    port_event(image, PortEvent::Read60)
}

// A read of port 64, the status.
#[unsafe(no_mangle)]
pub extern "C" fn xiquepazo_read_64(image: &mut Image) -> PortShown
    ensures { (image.new ≡ (port_to image.old PortEvent.Read64).image)
        × (result ≡ (port_to image.old PortEvent.Read64).shown) }
{
    port_event(image, PortEvent::Read64)
}

// A byte written to port 60, the command byte; or refusal 16.
#[unsafe(no_mangle)]
pub extern "C" fn xiquepazo_write_60(image: &mut Image, byte: u8) -> PortShown
    ensures { (image.new ≡ (port_to image.old (PortEvent.Write60 byte)).image)
        × (result ≡ (port_to image.old (PortEvent.Write60 byte)).shown) }
{
    port_event(image, PortEvent::Write60(byte))
}

// A byte written to port 64, a command; or refusal 15.
#[unsafe(no_mangle)]
pub extern "C" fn xiquepazo_write_64(image: &mut Image, byte: u8) -> PortShown
    ensures { (image.new ≡ (port_to image.old (PortEvent.Write64 byte)).image)
        × (result ≡ (port_to image.old (PortEvent.Write64 byte)).shown) }
{
    port_event(image, PortEvent::Write64(byte))
}
