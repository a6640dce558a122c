// A poll of the line: which command starts, the byte under way and its counts.
#![tactic(auto)]

ghost use Rattle.std.specs.Prelude.{◌≡◌};
ghost use Rattle.line.specs.State.{is_value_of};
ghost use Rattle.line.specs.Poll.{waiting_of, unhandled_of, first_of, next_of, one_more_of, first_byte_of, due_of, counted_of, send_of, rate_left_of, start_of, idle_poll_of, poll_of};

use line::{Answer, Command, Kind, Line, Marks, Outcome, Phase};

// A command that a poll may start: its kind and its operand.
type Start = (Kind, u8);

// The command of the rate that waits.
#[tactic(auto, unfolding(line::specs::Poll::waiting_of))]
fn waiting(rate: Option<u8>) -> Option<Start>
    ensures { result ≡ waiting_of rate }
{
    rate.map(|value| (Kind::Rate, value))
}

// The command of a LED value that was not handled.
fn unhandled(handled: Option<u8>, led: u8) -> Option<Start>
    ensures { result ≡ unhandled_of handled led }
{
    if handled == Some(led) {
        return None;
    }
    Some((Kind::Led, led))
}

// Which command starts: where both are there, the one whose turn it is.
fn next_command(line: Line, turn: Kind, led: u8) -> Option<Start>
    ensures { result ≡ next_of line turn led }
{
    let lamps = unhandled(line.handled, led);
    let rate = waiting(line.rate);
    match turn {
        Kind::Led => lamps.or(rate),
        Kind::Rate => rate.or(lamps),
    }
}

// A count that stops at its limit.
fn one_more(count: u8, most: u8) -> u8
    ensures { result ≡ one_more_of count most }
{
    if count < most {
        return count + 1;
    }
    most
}

#[tactic(auto, unfolding(line::specs::Poll::first_byte_of))]
fn first_byte(kind: Kind) -> u8
    ensures { result ≡ first_byte_of kind }
{
    match kind {
        Kind::Led => 0xED,
        Kind::Rate => 0xF3,
    }
}

// The byte under way.
fn due(command: Command) -> u8
    ensures { result ≡ due_of command }
{
    if command.operand {
        return command.value;
    }
    first_byte(command.kind)
}

// The command with one more send of its byte.
#[tactic(auto, unfolding(line::specs::Poll::counted_of))]
fn counted(command: Command) -> Command
    ensures { result ≡ counted_of command }
{
    Command {
        sends: one_more(command.sends, 3),
        sent: one_more(command.sent, 6),
        ..command
    }
}

// One send of the byte under way, after which its reply is awaited.
#[tactic(auto, unfolding(line::specs::Poll::send_of))]
fn send(line: Line, command: Command) -> Outcome
    ensures { result ≡ send_of line command }
{
    let next = counted(command);
    Outcome {
        line: Line {
            phase: Phase::Awaiting(next),
            marks: Marks {
                acknowledged: false,
                resend: false,
                ..line.marks
            },
            ..line
        },
        answer: Answer::Send(due(command)),
        sent: next.sent,
    }
}

// The rate that waits once a command started.
#[tactic(auto, unfolding(line::specs::Poll::rate_left_of))]
fn rate_left(rate: Option<u8>, kind: Kind) -> Option<u8>
    ensures { result ≡ rate_left_of rate kind }
{
    match kind {
        Kind::Led => rate,
        Kind::Rate => None,
    }
}

// A command starts by the first send of its first byte.
#[tactic(auto, unfolding(line::specs::Poll::start_of))]
fn start(line: Line, kind: Kind, value: u8) -> Outcome
    ensures { result ≡ start_of line kind value }
{
    let fresh = Line {
        rate: rate_left(line.rate, kind),
        marks: Marks {
            abandoned: false,
            ..line.marks
        },
        ..line
    };
    let command = Command {
        kind,
        value,
        operand: false,
        sends: 0,
        sent: 0,
    };
    send(fresh, command)
}

// A poll of an idle line.
#[tactic(auto, unfolding(line::specs::Poll::idle_poll_of, line::specs::Poll::start_next_of))]
fn idle_poll(line: Line, turn: Kind, led: u8) -> Outcome
    ensures { result ≡ idle_poll_of line turn led }
{
    match next_command(line, turn, led) {
        None => line::unchanged(line, Answer::Quiet),
        Some((kind, value)) => start(line, kind, value),
    }
}

// A poll for a byte to send, with the LED value that stands now.
#[tactic(auto, unfolding(line::specs::Poll::poll_in, line::specs::Poll::poll_of))]
pub fn poll(line: Line, led: u8) -> Outcome
    ensures { result ≡ poll_of line led }
{
    match line.phase {
        Phase::Idle(turn) => idle_poll(line, turn, led),
        Phase::Awaiting(_) => line::unchanged(line, Answer::Quiet),
        Phase::Ready(command) => send(line, command),
    }
}
