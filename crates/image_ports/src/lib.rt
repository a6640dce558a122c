// The calls on the ports: the controller's numbers respond, and what the service has to do with it is an event on a copy.
#![tactic(auto)]

ghost use Rattle.std.specs.Prelude.{◌≡◌};
ghost use Rattle.state.specs.State.{with_controller};
ghost use Rattle.events.specs.Controller.{on_response};
ghost use Rattle.image.specs.Image.{service_of};
ghost use Rattle.image_calls.specs.Exports.{changed_by};
ghost use Rattle.image_calls.specs.PortCalls.{port_to};

use answers::Refusal;
use controller::{Controller, PortEvent, Response};
use events::Event;
use image::Image;
use image_calls::{Changed, PortChanged, PortShown};

// What comes of a response, where this controller is left: a key is fed, a refusal leaves the image, and anything else has nothing to tell.
fn on_response(image: Image, left: Controller, response: Response) -> Changed
    ensures { result ≡ changed_by image (on_response (with_controller (service_of image) left) response) }
{
    let next = image_controller::on_controller(image_controller::image_of(left), image);
    match response {
        Response::Accepted => image_lent::standing_anew(next),
        Response::Interrupt => image_lent::standing_anew(next),
        Response::Byte(_) => image_lent::standing_anew(next),
        Response::Key(byte) => image_lent::event_on_copy(
            next,
            image_reading::tagged_of(Event::Key(byte)),
        ),
        Response::Refused(refusal) => image_lent::refused(image, Refusal::Port(refusal)),
    }
}

pub fn port_event(image: Image, event: PortEvent) -> PortChanged
    ensures { result ≡ port_to image event }
{
    let numbers = image.controller;
    let responded = controller_events::respond(image_controller::controller_of(numbers), event);
    let left = responded.controller;
    let response = responded.response;
    let changed = on_response(image, left, response);
    let after = changed.image;
    let shown = changed.shown;
    PortChanged {
        image: after,
        shown: PortShown {
            shown,
            byte: controller::byte_in(response),
            status: controller::status(left),
            interrupt: controller::interrupt_in(response) as u8,
            fed: controller::is_key_in(response) as u8,
        },
    }
}
