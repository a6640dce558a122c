// The line to the keyboard: its state, the definitions of its polls and replies, and what holds of them. Their code is in the crates above.
// Every value of these types has a meaning, reached or not, so no call asks anything of its caller.
// The order of the fields means nothing; it is the one that costs least.
#![tactic(auto)]

ghost use Rattle.std.specs.Prelude.{◌≡◌};
ghost use Rattle.line.specs.State.{new_line, wait_rate_of, sent_of, unchanged_of, is_led_of, led_runs_of};
ghost use Rattle.line.specs.Byte97.{byte97_of};

// ED with the lamps, or F3 with the repeat rate.
#[derive(Clone, Copy)]
pub enum Kind {
    Led,
    Rate,
}

// A command that runs.
#[derive(Clone, Copy)]
pub struct Command {
    pub kind: Kind,
    // the second byte is under way, not the first
    pub operand: bool,
    // its second byte, fixed at the start
    pub value: u8,
    // bytes sent since the start
    pub sent: u8,
    // sends of the byte under way
    pub sends: u8,
}

// An idle line knows whose turn it is. A command awaits the reply to a send, or is ready for the poll that sends.
#[derive(Clone, Copy)]
pub enum Phase {
    Idle(Kind),
    Awaiting(Command),
    Ready(Command),
}

// What byte 97 shows of the past.
#[derive(Clone, Copy)]
pub struct Marks {
    pub abandoned: bool,
    pub resend: bool,
    pub done: u8,
    pub acknowledged: bool,
}

#[derive(Clone, Copy)]
pub struct Line {
    pub phase: Phase,
    pub marks: Marks,
    // the rate that waits for its command
    pub rate: Option<u8>,
    // the last LED value that was done or given up
    pub handled: Option<u8>,
}

#[derive(Clone, Copy)]
pub enum Answer {
    Send(u8),
    Quiet,
    Taken,
    Ignored,
    GivenUp,
}

#[derive(Clone, Copy)]
pub struct Outcome {
    pub answer: Answer,
    // bytes sent by the command that runs, or that ends here
    pub sent: u8,
    pub line: Line,
}

// A line as made, and as a restart leaves it.
#[tactic(auto, unfolding(crate::specs::State::new_line))]
pub fn new() -> Line
    ensures { result ≡ new_line }
{
    Line {
        phase: Phase::Idle(Kind::Led),
        handled: None,
        rate: None,
        marks: Marks {
            done: 0,
            acknowledged: false,
            resend: false,
            abandoned: false,
        },
    }
}

// A new waiting rate replaces one that waits; a command that runs keeps its own.
#[tactic(auto, unfolding(crate::specs::State::wait_rate_of))]
pub fn wait_rate(line: Line, rate: u8) -> Line
    ensures { result ≡ wait_rate_of line rate }
{
    Line {
        rate: Some(rate),
        ..line
    }
}

// The bytes sent by the command that runs, 0 without one.
#[tactic(auto, unfolding(crate::specs::State::sent_of, crate::specs::State::sent_in))]
pub fn sent(line: Line) -> u8
    ensures { result ≡ sent_of line }
{
    match line.phase {
        Phase::Idle(_) => 0,
        Phase::Awaiting(command) | Phase::Ready(command) => command.sent,
    }
}

// An answer that leaves the line as it is.
#[tactic(auto, unfolding(crate::specs::State::unchanged_of))]
pub fn unchanged(line: Line, answer: Answer) -> Outcome
    ensures { result ≡ unchanged_of line answer }
{
    let sent = sent(line);
    Outcome { line, answer, sent }
}

// Whether a command is a LED command.
#[tactic(auto, unfolding(crate::specs::State::is_led_of))]
pub fn is_led(command: Command) -> bool
    ensures { result ≡ is_led_of command.kind }
{
    matches!(command.kind, Kind::Led)
}

// Bit 6 of byte 97.
#[tactic(auto, unfolding(crate::specs::State::led_runs_of, crate::specs::State::led_runs_in))]
fn led_runs(line: Line) -> bool
    ensures { result ≡ led_runs_of line }
{
    match line.phase {
        Phase::Idle(_) => false,
        Phase::Awaiting(command) | Phase::Ready(command) => is_led(command),
    }
}

// Flag byte 97: a LED value has three bits, so the remainder is the value itself.
#[tactic(auto, unfolding(bits::specs::Bits::byte_of, bits::specs::Bits::weight_of, crate::specs::Byte97::byte97_of))]
pub fn byte97(line: Line) -> u8
    ensures { result ≡ byte97_of line }
{
    let marks = line.marks;
    let runs = led_runs(line);
    let high = bits::byte(
        false,
        false,
        false,
        false,
        marks.acknowledged,
        marks.resend,
        runs,
        marks.abandoned,
    );
    marks.done % 8 + high
}
