// What flag bytes say of keys and locks, and a number of a prefix.
ghost use Rattle.std.specs.Prelude.{◌≡◌};
ghost use Rattle.image.specs.ImageFlags.{modifiers_at, held_at, shared_at, prefix_at};

use image::FlagBytes;
use port::{Held, Modifiers, Prefix, Shared, Sides};

pub fn modifiers_of(flags: FlagBytes) -> Modifiers
    ensures { result ≡ modifiers_at flags }
{
    Modifiers {
        shift: Sides {
            left: flags.byte17 / 2 % 2 == 1,
            right: flags.byte17 % 2 == 1,
        },
        ctrl: Sides {
            left: flags.byte18 % 2 == 1,
            right: flags.byte96 / 4 % 2 == 1,
        },
        alt: Sides {
            left: flags.byte18 / 2 % 2 == 1,
            right: flags.byte96 / 8 % 2 == 1,
        },
    }
}

pub fn held_of(byte18: u8) -> Held
    ensures { result ≡ held_at byte18 }
{
    Held {
        scroll: byte18 / 16 % 2 == 1,
        num: byte18 / 32 % 2 == 1,
        caps: byte18 / 64 % 2 == 1,
        insert: byte18 / 128 % 2 == 1,
        sysreq: byte18 / 4 % 2 == 1,
    }
}

pub fn shared_of(flags: FlagBytes) -> Shared
    ensures { result ≡ shared_at flags }
{
    Shared {
        locks: state::locks_of(flags.byte17 / 16),
        paused: flags.byte18 / 8 % 2 == 1,
    }
}

pub fn prefix_of(number: u8) -> Prefix
    ensures { result ≡ prefix_at number }
{
    match number {
        1 => Prefix::E0,
        2 => Prefix::E1,
        3 => Prefix::E1Make,
        4 => Prefix::E1Break,
        _ => Prefix::Closed,
    }
}
