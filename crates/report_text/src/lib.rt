// The text of a report, written to a buffer.
#![tactic(auto)]

ghost use Rattle.std.specs.Prelude.{◌≡◌, ◌++◌, ◌≤◌, length, drop};
ghost use Rattle.report.specs.Text.{text_of};
ghost use Rattle.report.specs.Reported.{written_of};

use report::{LENGTH, Report};

// The five lines, with a point for each character that a report fills in.
const BLANK: [u8; LENGTH] = *b"ev=.\nans=..\nword=....\nflags=........\nsent=.\n";

// The five lines go to the buffer whole and are filled in there, which takes fewer writes than to make the text first and copy it.
#[tactic(auto, unfolding(report::specs::Text::text_of))]
fn fill(report: Report, buffer: &mut [u8])
    requires { 44 ≤ length buffer.old }
    ensures { buffer.new ≡ text_of report ++ drop 44 buffer.old }
{
    let high = digits::high_byte(report.word);
    let low = digits::low_byte(report.word);
    let blank = BLANK;
    buffer[..blank.len()].copy_from_slice(&blank);
    buffer[3] = report.tag;
    buffer[9] = digits::high(report.ans);
    buffer[10] = digits::low(report.ans);
    buffer[17] = digits::high(high);
    buffer[18] = digits::low(high);
    buffer[19] = digits::high(low);
    buffer[20] = digits::low(low);
    buffer[28] = digits::high(report.byte17);
    buffer[29] = digits::low(report.byte17);
    buffer[30] = digits::high(report.byte18);
    buffer[31] = digits::low(report.byte18);
    buffer[32] = digits::high(report.byte96);
    buffer[33] = digits::low(report.byte96);
    buffer[34] = digits::high(report.byte97);
    buffer[35] = digits::low(report.byte97);
    buffer[42] = digits::digit(report.sent);
}

// The text over the first 44 bytes of a buffer; a shorter one is left as it is.
pub fn write(report: Report, buffer: &mut [u8])
    ensures { buffer.new ≡ written_of report buffer.old }
{
    if buffer.len() < LENGTH {
        return;
    }
    fill(report, buffer);
}
