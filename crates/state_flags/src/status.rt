// The extended status that function 12 returns over byte 17.
ghost use Rattle.std.specs.Prelude.{◌≡◌};
ghost use Rattle.state.specs.Flags.{status_high};

use state::Service;

// Its high byte.
#[tactic(auto, unfolding(state::specs::Flags::status_high))]
pub fn status_high(service: Service) -> u8
    ensures { result ≡ status_high service }
{
    let modifiers = service.ports.keyboard.modifiers;
    let held = service.ports.keyboard.held;
    bits::byte(
        modifiers.ctrl.left,
        modifiers.alt.left,
        modifiers.ctrl.right,
        modifiers.alt.right,
        held.scroll,
        held.num,
        held.caps,
        held.sysreq,
    )
}
