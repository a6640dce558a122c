// The flag bytes of the BIOS data area.
#![tactic(auto)]

ghost use Rattle.std.specs.Prelude.{◌≡◌};
ghost use Rattle.state.specs.Flags.{e0_open, e1_open, byte17_of, byte18_of, byte96_of, byte97_of};

use port::Prefix;
use state::Service;

pub mod status;

fn e0_open(prefix: Prefix) -> bool
    ensures { result ≡ e0_open prefix }
{
    matches!(prefix, Prefix::E0)
}

fn e1_open(prefix: Prefix) -> bool
    ensures { result ≡ e1_open prefix }
{
    matches!(prefix, Prefix::E1 | Prefix::E1Make | Prefix::E1Break)
}

// Modifiers and locks.
#[tactic(auto, unfolding(state::specs::Flags::byte17_of))]
pub fn byte17(service: Service) -> u8
    ensures { result ≡ byte17_of service }
{
    let modifiers = service.ports.keyboard.modifiers;
    let locks = service.shared.locks;
    bits::byte(
        modifiers.shift.right,
        modifiers.shift.left,
        modifiers.ctrl.down(),
        modifiers.alt.down(),
        locks.scroll,
        locks.num,
        locks.caps,
        locks.insert,
    )
}

// Left keys, held keys and the pause.
#[tactic(auto, unfolding(state::specs::Flags::byte18_of))]
pub fn byte18(service: Service) -> u8
    ensures { result ≡ byte18_of service }
{
    let modifiers = service.ports.keyboard.modifiers;
    let held = service.ports.keyboard.held;
    bits::byte(
        modifiers.ctrl.left,
        modifiers.alt.left,
        held.sysreq,
        service.shared.paused,
        held.scroll,
        held.num,
        held.caps,
        held.insert,
    )
}

// Prefixes and right keys.
#[tactic(auto, unfolding(state::specs::Flags::byte96_of))]
pub fn byte96(service: Service) -> u8
    ensures { result ≡ byte96_of service }
{
    let port = service.ports.keyboard;
    let modifiers = port.modifiers;
    let prefix = port.prefix;
    bits::byte(
        e1_open(prefix),
        e0_open(prefix),
        modifiers.ctrl.right,
        modifiers.alt.right,
        false,
        false,
        false,
        false,
    )
}

// The line.
#[tactic(auto, unfolding(state::specs::Flags::byte97_of))]
pub fn byte97(service: Service) -> u8
    ensures { result ≡ byte97_of service }
{
    line::byte97(service.line)
}
