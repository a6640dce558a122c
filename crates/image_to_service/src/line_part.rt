// Numbers to lines. The marks of a line are in byte 97.
ghost use Rattle.std.specs.Prelude.{◌%◌, ◌≡◌};
ghost use Rattle.image.specs.ImageLine.{kind_at, setting_at, value_in, command_at, phase_at, marks_at, line_at};

use image::{CommandImage, LineImage};
use line::{Command, Kind, Line, Marks, Phase};

// How many values a LED command has, and a rate command.
const LED_VALUES: u8 = 8;

const RATE_VALUES: u8 = 128;

fn kind_of(number: u8) -> Kind
    ensures { result ≡ kind_at number }
{
    match number {
        0 => Kind::Led,
        _ => Kind::Rate,
    }
}

fn setting_of(known: u8, value: u8) -> Option<u8>
    ensures { result ≡ setting_at known value }
{
    (known != 0).then_some(value)
}

fn value_of(kind: u8, value: u8) -> u8
    ensures { result ≡ value_in kind value }
{
    match kind {
        0 => value % LED_VALUES,
        _ => value % RATE_VALUES,
    }
}

fn command_of(image: CommandImage) -> Command
    ensures { result ≡ command_at image }
{
    Command {
        kind: kind_of(image.kind),
        value: value_of(image.kind, image.value),
        operand: image.operand != 0,
        sends: image.sends.min(3),
        sent: image.sent.min(6),
    }
}

fn phase_of(image: CommandImage) -> Phase
    ensures { result ≡ phase_at image }
{
    match image.phase {
        1 => Phase::Awaiting(command_of(image)),
        2 => Phase::Ready(command_of(image)),
        _ => Phase::Idle(kind_of(image.kind)),
    }
}

fn marks_of(byte97: u8) -> Marks
    ensures { result ≡ marks_at byte97 }
{
    Marks {
        done: byte97 % LED_VALUES,
        acknowledged: byte97 / 16 % 2 == 1,
        resend: byte97 / 32 % 2 == 1,
        abandoned: byte97 / 128 % 2 == 1,
    }
}

#[tactic(auto, unfolding(image::specs::ImageLine::line_at))]
pub fn line_of(image: LineImage, byte97: u8) -> Line
    ensures { result ≡ line_at image byte97 }
{
    let handled = image.handled;
    let rate = image.rate;
    Line {
        phase: phase_of(image.command),
        handled: setting_of(handled.known, handled.value % LED_VALUES),
        rate: setting_of(rate.known, rate.value % RATE_VALUES),
        marks: marks_of(byte97),
    }
}
