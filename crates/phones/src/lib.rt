// The desk phone's half of parking, as it runs: the parking endpoint (`parking`, clause 7.1 of H.450.5) and the parked endpoint (`parked`, clause
// 7.2), each a machine of one call that takes one event at a time. Their clause tables are in `clauses`; here are the sorts of answer that the tables
// are written with.
#![tactic(auto)]

pub mod parked;
pub mod parking;

ghost use Rattle.std.specs.Prelude.{◌≡◌};
ghost use Rattle.clauses.specs.Answer.{begun, replied, told, ended, to, no_step};

use clauses::{Answer, Message, NoStep, Report, Step, Timer};

// Something is begun: its messages go out, and a timer starts.
pub(crate) fn begin(first: Message, second: Option<Message>, started: Timer) -> Answer
    ensures { result ≡ begun first second started }
{
    Answer {
        first: Some(first),
        second,
        started: Some(started),
        ..Answer::default()
    }
}

// One message goes out, or none, and that is all.
pub(crate) fn reply(first: Option<Message>) -> Answer
    ensures { result ≡ replied first }
{
    Answer {
        first,
        ..Answer::default()
    }
}

// The user is told something, and that is all.
pub(crate) fn tell(report: Report) -> Answer
    ensures { result ≡ told report }
{
    Answer {
        report: Some(report),
        ..Answer::default()
    }
}

// What was begun is over: a message goes out, or none, the user may be told something, and the timer stops.
pub(crate) fn end(first: Option<Message>, report: Option<Report>, stopped: Timer) -> Answer
    ensures { result ≡ ended first report stopped }
{
    Answer {
        first,
        report,
        stopped: Some(stopped),
        ..Answer::default()
    }
}

// The step to a state, with what is done.
pub(crate) fn to<S>(state: S, answer: Answer) -> Step<S>
    ensures { result ≡ to state answer }
{
    Step {
        state,
        answer: Ok(answer),
    }
}

// The clause names no step.
pub(crate) fn stay<S>(state: S) -> Step<S>
    ensures { result ≡ no_step state }
{
    Step {
        state,
        answer: Err(NoStep),
    }
}
