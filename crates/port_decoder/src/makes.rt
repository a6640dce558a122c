// Steps 5 to 9: a make with a row.
ghost use Rattle.std.specs.Prelude.{◌≡◌};
ghost use Rattle.port.specs.Makes.{entry_for, is_insert, word_put, typed, entered, made_of};

use port::{Code, Decoded, Effect, Held, Locks, Modifiers, Port, Shared};
use rows::{Entry, Selector};
use word::Word;

// The entry of a code in the rows, by what is on.
#[tactic(auto, unfolding(port::specs::Makes::entry_for))]
pub fn entry_for(code: Code, modifiers: Modifiers, locks: Locks) -> Entry
    ensures { result ≡ entry_for code modifiers locks }
{
    let shift = modifiers.shift.down();
    let ctrl = modifiers.ctrl.down();
    let alt = modifiers.alt.down();
    let selector = Selector {
        shift,
        ctrl,
        alt,
        caps: locks.caps,
        num: locks.num,
    };
    rows_tables::lookup(code.scan, code.extended, selector)
}

// Whether the word is one of Insert, of a key that was up.
fn is_insert(held: Held, code: Code, word: Word) -> bool
    ensures { result ≡ is_insert held code word }
{
    let number = u16::from(word);
    code.scan.is(0x52) & ((number == 0x5200) | (number == 0x52E0)) & !held.insert
}

// The word is put, and the Insert rule is applied.
#[tactic(auto, unfolding(port::specs::Makes::word_put))]
fn put(port: Port, shared: Shared, code: Code, word: Word) -> Decoded
    ensures { result ≡ word_put port shared code word }
{
    let held = port.held;
    let locks = shared.locks;
    let insert = is_insert(held, code, word);
    let now_held = insert | held.insert;
    let now_on = locks.insert ^ insert;
    let mut next = port;
    next.held.insert = now_held;
    let mut common = shared;
    common.locks.insert = now_on;
    port::result(next, common, Effect::Put(word))
}

// Steps 8 and 9.
fn type_key(port: Port, shared: Shared, code: Code, entry: Entry) -> Decoded
    ensures { result ≡ typed port shared code entry }
{
    if code.scan.is(0x46) & code.extended {
        return port::result(port, shared, Effect::Break);
    }
    match entry {
        Entry::NoRow => port::result(port, shared, Effect::Nothing),
        Entry::NoWord => port::result(port, shared, Effect::Nothing),
        Entry::Has(word) => put(port, shared, code, word),
    }
}

// Step 7 for a make: a digit counts, any other make ends the number.
#[tactic(auto, unfolding(port::specs::Makes::counted, port::specs::Makes::entered))]
fn enter(port: Port, shared: Shared, code: Code, entry: Entry) -> Decoded
    ensures { result ≡ entered port shared code entry }
{
    let alt = port.modifiers.alt.down();
    match port_alt_entry::alt_digit(alt, code) {
        None => type_key(port::with_sum(port, 0), shared, code, entry),
        Some(digit) => {
            let sum = port_alt_entry::sum_after(port.sum, digit);
            port::result(port::with_sum(port, sum), shared, Effect::Nothing)
        }
    }
}

// Steps 5 and 6, then the rest.
pub fn made(port: Port, shared: Shared, code: Code, entry: Entry) -> Decoded
    ensures { result ≡ made_of port shared code entry }
{
    let ctrl = port.modifiers.ctrl.down();
    let alt = port.modifiers.alt.down();
    if code.scan.is(0x53) & ctrl & alt {
        return port::result(port, shared, Effect::RestartAsked);
    }
    if shared.paused {
        return port::result(port, port::with_paused(shared, false), Effect::Nothing);
    }
    enter(port, shared, code, entry)
}
