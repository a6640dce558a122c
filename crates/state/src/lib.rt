// The state of the service.
#![tactic(auto)]

ghost use Rattle.std.specs.Prelude.{◌≡◌};
ghost use Rattle.state.specs.State.{making_refusal_number, locks_of, with_queue, with_line, with_codes, with_controller};

use controller::Controller;
use line::Line;
use port::{Locks, Port, Shared};
use queue::Queue;
use translation::Codes;

// Whose bytes reach a port.
#[derive(Clone, Copy)]
pub enum Device {
    Keyboard,
    Scanner,
}

// Each device has a port of its own.
#[derive(Clone, Copy)]
pub struct Ports {
    pub scanner: Port,
    pub keyboard: Port,
}

// The codes and the controller are the keyboard's alone: a scanner sends set 1 to a plug of its own. The order of the fields is that in which a copy is cheapest; it means nothing.
#[derive(Clone, Copy)]
pub struct Service {
    pub shared: Shared,
    pub ports: Ports,
    pub codes: Codes,
    pub queue: Queue,
    pub line: Line,
    pub controller: Controller,
}

// Why no service is made: lock bits above 15.
#[derive(Clone, Copy)]
pub enum MakingRefusal {
    LockBits,
}

impl MakingRefusal {
    pub fn number(self) -> u8
        ensures { result ≡ making_refusal_number self }
    {
        match self {
            MakingRefusal::LockBits => 1,
        }
    }
}

// What stands in the place of a service that is not made: the reason, and the service of bits 0.
#[derive(Clone, Copy)]
pub struct NotMade {
    pub refusal: MakingRefusal,
    pub service: Service,
}

// The locks of four bits.
#[tactic(auto, unfolding(crate::specs::State::locks_of))]
pub fn locks_of(bits: u8) -> Locks
    ensures { result ≡ locks_of bits }
{
    Locks {
        scroll: bits % 2 == 1,
        num: bits / 2 % 2 == 1,
        caps: bits / 4 % 2 == 1,
        insert: bits / 8 % 2 == 1,
    }
}

// The service with another queue.
pub fn with_queue(service: Service, queue: Queue) -> Service
    ensures { result ≡ with_queue service queue }
{
    Service { queue, ..service }
}

// The service with another line.
pub fn with_line(service: Service, line: Line) -> Service
    ensures { result ≡ with_line service line }
{
    Service { line, ..service }
}

// The service with other codes coming.
pub fn with_codes(service: Service, codes: Codes) -> Service
    ensures { result ≡ with_codes service codes }
{
    Service { codes, ..service }
}

// The service with another controller.
pub fn with_controller(service: Service, controller: Controller) -> Service
    ensures { result ≡ with_controller service controller }
{
    Service {
        controller,
        ..service
    }
}
