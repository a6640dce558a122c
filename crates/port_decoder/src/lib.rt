// A byte at a keyboard port: steps 2 to 9 of document 01, by value. The replies FA and FE are taken out before a byte comes here.
#![tactic(auto)]

ghost use Rattle.std.specs.Prelude.{◌≡◌};
ghost use Rattle.port.specs.KeyByte.{code_read, key_byte_of};
ghost use Rattle.port_decoder.specs.Rowless.{is_no_row};

use port::{Code, Decoded, Effect, Port, Prefix, Reading, Shared};
use rows::Entry;

mod makes;

fn no_row(entry: Entry) -> bool
    ensures { result ≡ is_no_row entry }
{
    matches!(entry, Entry::NoRow)
}

// Steps 4 to 9, with the prefix closed.
fn code_read(port: Port, shared: Shared, code: Code) -> Decoded
    ensures { result ≡ code_read port shared code }
{
    let modifiers = port.modifiers;
    let locks = shared.locks;
    let entry = makes::entry_for(code, modifiers, locks);
    if no_row(entry) {
        return port_modifiers::changed(port, shared, code);
    }
    makes::made(port, shared, code, entry)
}

// A byte at the port, FA and FE apart.
#[tactic(auto, unfolding(port::specs::KeyByte::key_byte_of, port::specs::KeyByte::on_reading))]
pub fn key_byte(port: Port, shared: Shared, byte: u8) -> Decoded
    ensures { result ≡ key_byte_of port shared byte }
{
    let prefix = port.prefix;
    let closed = port::with_prefix(port, Prefix::Closed);
    match port_prefixes::read(prefix, byte) {
        Reading::Overrun => port::result(closed, shared, Effect::Overrun),
        Reading::Opens(next) => port::result(
            port::with_prefix(port, next),
            shared,
            Effect::Nothing,
        ),
        Reading::Pauses => port::result(closed, port::with_paused(shared, true), Effect::Nothing),
        Reading::PauseEnds => port::result(closed, shared, Effect::Nothing),
        Reading::Key(code) => code_read(closed, shared, code),
    }
}
