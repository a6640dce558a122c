// Which column of a row applies, by what is on.
#![tactic(auto)]

ghost use Rattle.std.specs.Prelude.{◌≡◌};
ghost use Rattle.rows.specs.Column.{is_letter, is_keypad, is_shifted, column_of};

use rows::{Column, Selector};
use word::ScanCode;

fn is_letter(code: ScanCode) -> bool
    ensures { result ≡ is_letter code }
{
    code.within(0x10, 0x19) | code.within(0x1E, 0x26) | code.within(0x2C, 0x32)
}

fn is_keypad(code: ScanCode) -> bool
    ensures { result ≡ is_keypad code }
{
    code.within(0x47, 0x53)
}

// Letters turn with Caps, the keypad with Num.
fn is_shifted(code: ScanCode, selector: Selector) -> bool
    ensures { result ≡ is_shifted code selector }
{
    if is_letter(code) {
        return selector.shift ^ selector.caps;
    }
    if is_keypad(code) {
        return selector.shift ^ selector.num;
    }
    selector.shift
}

// Alt before Ctrl before Shift.
pub fn column_of(code: ScanCode, selector: Selector) -> Column
    ensures { result ≡ column_of code selector }
{
    if selector.alt {
        return Column::Alt;
    }
    if selector.ctrl {
        return Column::Ctrl;
    }
    if is_shifted(code, selector) {
        return Column::Shift;
    }
    Column::Plain
}
