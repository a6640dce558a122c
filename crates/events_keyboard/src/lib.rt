// A byte from the keyboard: translated first, then a reply for the line, or a key for its port. A byte from the scanner: always a key for its port.
// Both take one way, so that the decoder is called from one place, where the compiler puts its code.
#![tactic(auto)]

ghost use Rattle.std.specs.Prelude.{◌≡◌};
ghost use Rattle.events_keyboard.specs.Devices.{translated_from, acknowledged_from, resent_from, read_from, byte_from};

use answers::Answer;
use events::Outcome;
use state::{Device, Service};
use translation::{Codes, Translated};

// A scanner sends set 1.
fn translate(device: Device, codes: Codes, byte: u8) -> Translated
    ensures { result ≡ translated_from device codes byte }
{
    match device {
        Device::Keyboard => translation::translate(codes, byte),
        Device::Scanner => Translated {
            codes,
            passed: Some(byte),
        },
    }
}

// FA. A scanner has nothing to reply to.
fn acknowledge(device: Device, service: Service) -> Outcome
    ensures { result ≡ acknowledged_from device service }
{
    match device {
        Device::Keyboard => events_commands::acknowledge(service),
        Device::Scanner => events_outcomes::answered(service, Answer::Ignored),
    }
}

// FE.
fn resend(device: Device, service: Service) -> Outcome
    ensures { result ≡ resent_from device service }
{
    match device {
        Device::Keyboard => events_commands::resend(service),
        Device::Scanner => events_outcomes::answered(service, Answer::Ignored),
    }
}

// Step 1 before the others: FA and FE touch no prefix.
fn read(device: Device, service: Service, byte: u8) -> Outcome
    ensures { result ≡ read_from device service byte }
{
    if byte == 0xFA {
        return acknowledge(device, service);
    }
    if byte == 0xFE {
        return resend(device, service);
    }
    events_typing::typed(device, service, byte)
}

// The translation before step 1. A mark is kept in the codes and has nothing to tell.
pub fn byte(device: Device, service: Service, byte: u8) -> Outcome
    ensures { result ≡ byte_from device service byte }
{
    let translated = translate(device, service.codes, byte);
    let next = state::with_codes(service, translated.codes);
    match translated.passed {
        None => events_outcomes::answered(next, Answer::Nothing),
        Some(byte) => read(device, next, byte),
    }
}
