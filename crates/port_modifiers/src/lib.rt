// Step 4: modifiers, held bits and locks.
#![tactic(auto)]

ghost use Rattle.std.specs.Prelude.{◌≡◌, ◌<◌};
ghost use Rattle.port.specs.Flags.{modifiers_after, held_after, locks_after, flags_changed};
ghost use Rattle.port_modifiers.specs.Named.{is_key, is_named};

use port::{Code, Decoded, Effect, Held, Locks, Modifiers, Port, Shared, Sides};
use word::ScanCode;

#[tactic(auto, unfolding(port::specs::Flags::modifiers_after))]
fn modifiers_after(modifiers: Modifiers, code: Code) -> Modifiers
    ensures { result ≡ modifiers_after modifiers code }
{
    let scan = code.scan;
    let e0 = code.extended;
    let shift = modifiers.shift;
    let ctrl = modifiers.ctrl;
    let alt = modifiers.alt;
    Modifiers {
        shift: Sides {
            left: !(scan.is(0xAA) & !e0) & ((scan.is(0x2A) & !e0) | shift.left),
            right: !(scan.is(0xB6) & !e0) & ((scan.is(0x36) & !e0) | shift.right),
        },
        ctrl: Sides {
            left: !(scan.is(0x9D) & !e0) & ((scan.is(0x1D) & !e0) | ctrl.left),
            right: !(scan.is(0x9D) & e0) & ((scan.is(0x1D) & e0) | ctrl.right),
        },
        alt: Sides {
            left: !(scan.is(0xB8) & !e0) & ((scan.is(0x38) & !e0) | alt.left),
            right: !(scan.is(0xB8) & e0) & ((scan.is(0x38) & e0) | alt.right),
        },
    }
}

// Ins held is set with the Insert word, and only cleared here.
#[tactic(auto, unfolding(port::specs::Flags::held_after))]
fn held_after(held: Held, code: Code) -> Held
    ensures { result ≡ held_after held code }
{
    let scan = code.scan;
    let e0 = code.extended;
    Held {
        scroll: !(scan.is(0xC6) & !e0) & ((scan.is(0x46) & !e0) | held.scroll),
        num: !(scan.is(0xC5) & !e0) & ((scan.is(0x45) & !e0) | held.num),
        caps: !(scan.is(0xBA) & !e0) & ((scan.is(0x3A) & !e0) | held.caps),
        insert: !scan.is(0xD2) & held.insert,
        sysreq: !(scan.is(0xD4) & !e0) & ((scan.is(0x54) & !e0) | held.sysreq),
    }
}

// A make toggles its lock only where the key was up.
#[tactic(auto, unfolding(port::specs::Flags::locks_after))]
fn locks_after(locks: Locks, held: Held, code: Code) -> Locks
    ensures { result ≡ locks_after locks held code }
{
    let scan = code.scan;
    let e0 = code.extended;
    Locks {
        scroll: locks.scroll ^ (scan.is(0x46) & !e0 & !held.scroll),
        num: locks.num ^ (scan.is(0x45) & !e0 & !held.num),
        caps: locks.caps ^ (scan.is(0x3A) & !e0 & !held.caps),
        insert: locks.insert,
    }
}

// A key by its make and its break.
fn is_key(scan: ScanCode, make: u8) -> bool
    requires { make < 0x80 }
    ensures { result ≡ is_key make scan }
{
    scan.is(make) | scan.is(make + 0x80)
}

// Whether step 4 names the code.
#[tactic(auto, unfolding(crate::specs::Named::is_named))]
fn is_named(scan: ScanCode) -> bool
    ensures { result ≡ is_named scan }
{
    is_key(scan, 0x2A)
        | is_key(scan, 0x36)
        | is_key(scan, 0x1D)
        | is_key(scan, 0x38)
        | is_key(scan, 0x3A)
        | is_key(scan, 0x45)
        | is_key(scan, 0x46)
        | is_key(scan, 0x54)
        | scan.is(0xD2)
}

// A code without a row. Most are breaks of keys with one, and change nothing.
pub fn changed(port: Port, shared: Shared, code: Code) -> Decoded
    ensures { result ≡ flags_changed port shared code }
{
    if !is_named(code.scan) {
        return port::result(port, shared, Effect::Nothing);
    }
    let modifiers = modifiers_after(port.modifiers, code);
    let held = held_after(port.held, code);
    let locks = locks_after(shared.locks, port.held, code);
    let next = Port {
        modifiers,
        held,
        ..port
    };
    let common = Shared { locks, ..shared };
    if code.scan.is(0xB8) & !modifiers.alt.down() {
        return port_alt_entry::ended(next, common);
    }
    port::result(next, common, Effect::Nothing)
}
