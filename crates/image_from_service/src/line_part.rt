// Lines to numbers. The marks of a line are in byte 97.
ghost use Rattle.std.specs.Prelude.{◌≡◌};
ghost use Rattle.image.specs.ImageLine.{kind_number, setting_image, command_image, phase_image, line_image};

use image::{CommandImage, LineImage, SettingImage};
use line::{Command, Kind, Line, Phase};

fn kind_number(kind: Kind) -> u8
    ensures { result ≡ kind_number kind }
{
    match kind {
        Kind::Led => 0,
        Kind::Rate => 1,
    }
}

fn setting_image(setting: Option<u8>) -> SettingImage
    ensures { result ≡ setting_image setting }
{
    setting.map_or(
        SettingImage::default(),
        |value| SettingImage { known: 1, value },
    )
}

fn command_image(phase: u8, command: Command) -> CommandImage
    ensures { result ≡ command_image phase command }
{
    CommandImage {
        phase,
        kind: kind_number(command.kind),
        value: command.value,
        operand: command.operand as u8,
        sends: command.sends,
        sent: command.sent,
    }
}

fn phase_image(phase: Phase) -> CommandImage
    ensures { result ≡ phase_image phase }
{
    match phase {
        Phase::Idle(turn) => CommandImage {
            kind: kind_number(turn),
            ..CommandImage::default()
        },
        Phase::Awaiting(command) => command_image(1, command),
        Phase::Ready(command) => command_image(2, command),
    }
}

#[tactic(auto, unfolding(image::specs::ImageLine::line_image))]
pub fn image_of(line: Line) -> LineImage
    ensures { result ≡ line_image line }
{
    LineImage {
        command: phase_image(line.phase),
        handled: setting_image(line.handled),
        rate: setting_image(line.rate),
    }
}
