// The code of the five port events.
#![tactic(auto)]

ghost use Rattle.std.specs.Prelude.{◌≡◌};
ghost use Rattle.controller.specs.PortEvents.{holding, obeyed_of, disabled_of, enabled_of, from_keyboard_of, read60_of, write60_of, write64_of, responded_of};

use controller::{Buffer, Controller, PortEvent, PortRefusal, Responded, Response};

// The controller with another byte in the buffer, or none.
fn holding(controller: Controller, buffer: Buffer) -> Controller
    ensures { result ≡ holding controller buffer }
{
    Controller {
        buffer,
        ..controller
    }
}

// A write to 64 was accepted: it ends a wait or begins one.
fn obeyed(buffer: Buffer, command: u8, awaiting: bool) -> Responded
    ensures { result ≡ obeyed_of buffer command awaiting }
{
    let next = Controller {
        buffer,
        command,
        awaiting,
        commanded: true,
    };
    Responded {
        controller: next,
        response: Response::Accepted,
    }
}

// The command byte with bit 4 on.
fn disabled(command: u8) -> u8
    ensures { result ≡ disabled_of command }
{
    if command / 16 % 2 == 1 {
        return command;
    }
    command + 16
}

// The command byte with bit 4 off.
fn enabled(command: u8) -> u8
    ensures { result ≡ enabled_of command }
{
    if command / 16 % 2 == 1 {
        return command - 16;
    }
    command
}

// A byte from the keyboard is held, or refused by 14.
fn from_keyboard(controller: Controller, byte: u8) -> Responded
    ensures { result ≡ from_keyboard_of controller byte }
{
    let buffer = controller.buffer;
    if controller::full(buffer) | (controller.command / 16 % 2 == 1) {
        return Responded {
            controller,
            response: Response::Refused(PortRefusal::Busy),
        };
    }
    let next = holding(controller, Buffer::Key(byte));
    if controller.command % 2 == 1 {
        return Responded {
            controller: next,
            response: Response::Interrupt,
        };
    }
    Responded {
        controller: next,
        response: Response::Accepted,
    }
}

#[tactic(auto, unfolding(controller::specs::PortEvents::read60_of))]
fn read_60(controller: Controller) -> Responded
    ensures { result ≡ read60_of controller controller.buffer }
{
    let buffer = controller.buffer;
    match buffer {
        Buffer::Empty(last) => Responded {
            controller,
            response: Response::Byte(last),
        },
        Buffer::Key(byte) => Responded {
            controller: holding(controller, Buffer::Empty(byte)),
            response: Response::Key(byte),
        },
        Buffer::Answer(byte) => Responded {
            controller: holding(controller, Buffer::Empty(byte)),
            response: Response::Byte(byte),
        },
    }
}

// A write to 60 is the command byte where that is awaited, and else refused by 16.
fn write_60(controller: Controller, byte: u8) -> Responded
    ensures { result ≡ write60_of controller byte }
{
    if controller.awaiting {
        let next = Controller {
            command: byte,
            awaiting: false,
            commanded: false,
            ..controller
        };
        return Responded {
            controller: next,
            response: Response::Accepted,
        };
    }
    Responded {
        controller,
        response: Response::Refused(PortRefusal::Unawaited),
    }
}

// A write to 64 is one of five commands, or refused by 15.
fn write_64(controller: Controller, byte: u8) -> Responded
    ensures { result ≡ write64_of controller byte }
{
    let buffer = controller.buffer;
    let command = controller.command;
    match byte {
        0x20 => obeyed(Buffer::Answer(command), command, false),
        0x60 => obeyed(buffer, command, true),
        0xAA => obeyed(Buffer::Answer(0x55), command, false),
        0xAD => obeyed(buffer, disabled(command), false),
        0xAE => obeyed(buffer, enabled(command), false),
        _ => Responded {
            controller,
            response: Response::Refused(PortRefusal::Command),
        },
    }
}

// One port event.
#[tactic(auto, unfolding(controller::specs::PortEvents::responded_of))]
pub fn respond(controller: Controller, event: PortEvent) -> Responded
    ensures { result ≡ responded_of controller event }
{
    match event {
        PortEvent::FromKeyboard(byte) => from_keyboard(controller, byte),
        PortEvent::Read60 => read_60(controller),
        PortEvent::Read64 => Responded {
            controller,
            response: Response::Byte(controller::status(controller)),
        },
        PortEvent::Write60(byte) => write_60(controller, byte),
        PortEvent::Write64(byte) => write_64(controller, byte),
    }
}
