// What FA, FE and a time-out make of the command whose reply is awaited, and the marks of byte 97 that they set.
#![tactic(auto)]

ghost use Rattle.std.specs.Prelude.{◌≡◌};
ghost use Rattle.line.specs.State.{in_phase_of, with_marks_of};
ghost use Rattle.line.specs.Reply.{mark_acknowledged_of, mark_resend_of, mark_done_of, mark_abandoned_of, ended_of, operand_of, acknowledged_of, failed_of, acknowledge_of, resend_of, time_out_of};

use line::{Answer, Command, Kind, Line, Marks, Outcome, Phase};

fn in_phase(line: Line, phase: Phase) -> Line
    ensures { result ≡ in_phase_of line phase }
{
    Line { phase, ..line }
}

fn with_marks(line: Line, marks: Marks) -> Line
    ensures { result ≡ with_marks_of line marks }
{
    Line { marks, ..line }
}

// The line that took FA.
#[tactic(auto, unfolding(line::specs::Reply::mark_acknowledged_of))]
fn mark_acknowledged(line: Line) -> Line
    ensures { result ≡ mark_acknowledged_of line }
{
    with_marks(
        line,
        Marks {
            acknowledged: true,
            ..line.marks
        },
    )
}

// The line that took FE.
#[tactic(auto, unfolding(line::specs::Reply::mark_resend_of))]
fn mark_resend(line: Line) -> Line
    ensures { result ≡ mark_resend_of line }
{
    with_marks(
        line,
        Marks {
            resend: true,
            ..line.marks
        },
    )
}

// The line whose command is done: a LED value is the last one done.
fn mark_done(line: Line, command: Command) -> Line
    ensures { result ≡ mark_done_of line command }
{
    if line::is_led(command) {
        return with_marks(
            line,
            Marks {
                done: command.value,
                ..line.marks
            },
        );
    }
    line
}

// The line whose command is given up.
#[tactic(auto, unfolding(line::specs::Reply::mark_abandoned_of))]
fn mark_abandoned(line: Line) -> Line
    ensures { result ≡ mark_abandoned_of line }
{
    with_marks(
        line,
        Marks {
            abandoned: true,
            ..line.marks
        },
    )
}

// The command ended, done or given up: its LED value is handled, and the turn is the other kind's.
fn ended(line: Line, command: Command) -> Line
    ensures { result ≡ ended_of line command }
{
    if line::is_led(command) {
        return Line {
            phase: Phase::Idle(Kind::Rate),
            handled: Some(command.value),
            ..line
        };
    }
    in_phase(line, Phase::Idle(Kind::Led))
}

// The command whose operand is under way, not yet sent.
#[tactic(auto, unfolding(line::specs::Reply::operand_of))]
fn operand(command: Command) -> Command
    ensures { result ≡ operand_of command }
{
    Command {
        operand: true,
        sends: 0,
        ..command
    }
}

// What a reply makes of the line, where it is not ignored.
fn replied(line: Line, answer: Answer, command: Command) -> Outcome
    ensures { result ≡ record { line = line; answer = answer; sent = command.sent } }
{
    Outcome {
        line,
        answer,
        sent: command.sent,
    }
}

// FA while a reply is awaited: the operand is next, or the command is done.
fn acknowledged(line: Line, command: Command) -> Outcome
    ensures { result ≡ acknowledged_of line command }
{
    if command.operand {
        return replied(
            ended(mark_done(line, command), command),
            Answer::Taken,
            command,
        );
    }
    replied(
        in_phase(line, Phase::Ready(operand(command))),
        Answer::Taken,
        command,
    )
}

// FE or a time-out while a reply is awaited: the byte is sent again unless it was sent three times.
fn failed(line: Line, command: Command) -> Outcome
    ensures { result ≡ failed_of line command }
{
    if command.sends < 3 {
        return replied(
            in_phase(line, Phase::Ready(command)),
            Answer::Taken,
            command,
        );
    }
    replied(
        ended(mark_abandoned(line), command),
        Answer::GivenUp,
        command,
    )
}

// The reply FA.
#[tactic(auto, unfolding(line::specs::Reply::acknowledge_of, line::specs::Reply::reply_in))]
pub fn acknowledge(line: Line) -> Outcome
    ensures { result ≡ acknowledge_of line }
{
    match line.phase {
        Phase::Awaiting(command) => acknowledged(mark_acknowledged(line), command),
        Phase::Idle(_) | Phase::Ready(_) => line::unchanged(line, Answer::Ignored),
    }
}

// The reply FE.
#[tactic(auto, unfolding(line::specs::Reply::resend_of, line::specs::Reply::reply_in))]
pub fn resend(line: Line) -> Outcome
    ensures { result ≡ resend_of line }
{
    match line.phase {
        Phase::Awaiting(command) => failed(mark_resend(line), command),
        Phase::Idle(_) | Phase::Ready(_) => line::unchanged(line, Answer::Ignored),
    }
}

// No reply came in time.
#[tactic(auto, unfolding(line::specs::Reply::time_out_of, line::specs::Reply::reply_in))]
pub fn time_out(line: Line) -> Outcome
    ensures { result ≡ time_out_of line }
{
    match line.phase {
        Phase::Awaiting(command) => failed(line, command),
        Phase::Idle(_) | Phase::Ready(_) => line::unchanged(line, Answer::Ignored),
    }
}
