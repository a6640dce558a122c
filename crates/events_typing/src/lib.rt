// A byte at the port of a device, steps 2 to 9, and what its effect does to the queue.
#![tactic(auto)]

ghost use Rattle.std.specs.Prelude.{◌≡◌};
ghost use Rattle.state.specs.State.{with_ports};
ghost use Rattle.events.specs.Keyboard.{put_of, broken_of, on_effect, typed_of};

use answers::Answer;
use events::Outcome;
use port::{Effect, Shared};
use state::{Device, Ports, Service};
use word::{Ascii, ScanCode, Word};

fn with_ports(service: Service, ports: Ports, shared: Shared) -> Service
    ensures { result ≡ with_ports service ports shared }
{
    let mut next = service;
    next.ports = ports;
    next.shared = shared;
    next
}

// A word is put, or dropped where the queue is full.
fn put(service: Service, word: Word) -> Outcome
    ensures { result ≡ put_of service word }
{
    events_outcomes::offered(service, word, Answer::Put(word), Answer::Dropped(word))
}

// Step 8: the queue holds the word 0000 alone.
#[tactic(auto, unfolding(events::specs::Keyboard::broken_of))]
fn broken(service: Service) -> Outcome
    ensures { result ≡ broken_of service }
{
    let mut next = service;
    next.queue = queue::empty();
    let _ = next.queue.put(Word::new(ScanCode::from(0), Ascii::from(0)));
    events_outcomes::answered(next, Answer::Break)
}

// What the port's effect does to the queue and answers.
#[tactic(auto, unfolding(events::specs::Keyboard::on_effect))]
fn apply(service: Service, effect: Effect) -> Outcome
    ensures { result ≡ on_effect service effect }
{
    match effect {
        Effect::Nothing => events_outcomes::answered(service, Answer::Nothing),
        Effect::Put(word) => put(service, word),
        Effect::Break => broken(service),
        Effect::RestartAsked => events_outcomes::answered(service, Answer::RestartAsked),
        Effect::Overrun => events_outcomes::answered(service, Answer::Overrun),
    }
}

// The one decoder, called with the port of either device.
#[tactic(auto, unfolding(events::specs::Keyboard::typed_of))]
pub fn typed(device: Device, service: Service, byte: u8) -> Outcome
    ensures { result ≡ typed_of device service byte }
{
    let keyboard = service.ports.keyboard;
    let scanner = service.ports.scanner;
    let port = match device {
        Device::Keyboard => keyboard,
        Device::Scanner => scanner,
    };
    let decoded = port_decoder::key_byte(port, service.shared, byte);
    let later = decoded.port;
    let shared = decoded.shared;
    let effect = decoded.effect;
    let next = match device {
        Device::Keyboard => Ports {
            keyboard: later,
            scanner,
        },
        Device::Scanner => Ports {
            keyboard,
            scanner: later,
        },
    };
    apply(with_ports(service, next, shared), effect)
}
