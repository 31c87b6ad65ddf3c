// What an invocation comes to by the reply of its worker.
ghost use Rattle.std.specs.Prelude.{◌≡◌, ◌++◌, ℕ, nat_le, length, codes, IfOk};
ghost use Rattle.std.specs.Result.{result_map_both};
ghost use Rattle.fh_base.specs.Limits.{longest_payload};
ghost use Rattle.fh_event.specs.Entries.{entry};
ghost use Rattle.fh_event.specs.declared.command.Command.TheVariants.{Finish};
ghost use Rattle.fh_event.specs.declared.outcome.Outcome.{Outcome as OutcomeIs};
ghost use Rattle.fh_event.specs.declared.outcome.Outcome.TheVariants.{Failed as FailedIs};
ghost use Rattle.fh_invoke.specs.Outcomes.{IsOutcome, IsFullOutcome, IsOutcomeOfBytes, IsOutcomeOfResponse};
ghost use Rattle.fh_invoke.specs.Outcomes.{IsOutcomeOfAnswer, IsAnswered, IsAnswerOutcome, IsFailure};
ghost use Rattle.fh_invoke.specs.Outcomes.{measured as measured_lem, wire_cause as wire_cause_lem};
ghost use Rattle.fh_invoke.specs.Outcomes.{answer_cause as answer_cause_lem};
ghost use Rattle.fh_invoke.specs.Replies.{parts_in, answer_of};

use crate::answer::{Answer, read_answer};
use crate::fault::{AnswerFault, OutputFault};
use crate::output::outputs_of;
use fh_app::{App, Function};
use fh_base::{Failed, LONGEST_PAYLOAD, NoMemory, Text, Texts};
use fh_event::{Begun, Command, Outcome, Outputs, entry_size};
use fh_wire::{HttpBack, WireFault, read_response};
use std::alloc::Global;
use std::mem;

/// The outcome that is recorded for this invocation of the function, and the log lines, by the bytes that the
/// worker sent: the first cause of failure, or success with the outputs. An ask that failed is a failure of
/// the link, and an outcome whose entry would be longer than one may be is the failure `too long`.
pub fn outcome_of(
    alloc: Global,
    reply: Result<&[u8], Failed>,
    begun: &Begun,
    function: &Function,
    app: &App,
) -> Result<(Outcome, Texts), NoMemory>
    ensures { IfOk result (IsOutcome (result_map_both (λ b. b.now) (λ e. e) reply.entry)
        begun.now function.now app.now) }
{
    let (full, logs) = full_outcome(alloc, reply, begun, function, app)?;
    let outcome = measured(alloc, begun.invocation, full)?;
    Ok((outcome, logs))
}

fn full_outcome(
    alloc: Global,
    reply: Result<&[u8], Failed>,
    begun: &Begun,
    function: &Function,
    app: &App,
) -> Result<(Outcome, Texts), NoMemory>
    ensures { IfOk result (IsFullOutcome (result_map_both (λ b. b.now) (λ e. e) reply.entry)
        begun.now function.now app.now) }
{
    match reply {
        Ok(bytes) => outcome_of_bytes(alloc, bytes, begun, function, app),
        Err(_) => failure(alloc, "link"),
    }
}

fn outcome_of_bytes(
    alloc: Global,
    bytes: &[u8],
    begun: &Begun,
    function: &Function,
    app: &App,
) -> Result<(Outcome, Texts), NoMemory>
    ensures { IfOk result (IsOutcomeOfBytes bytes.now begun.now function.now app.now) }
{
    match read_response(alloc, bytes) {
        Ok(back) => outcome_of_response(alloc, &back, begun, function, app),
        Err(WireFault::NoMemory) => Err(NoMemory),
        Err(fault) => failure(alloc, wire_cause(fault)),
    }
}

fn outcome_of_response(
    alloc: Global,
    back: &HttpBack,
    begun: &Begun,
    function: &Function,
    app: &App,
) -> Result<(Outcome, Texts), NoMemory>
    ensures { IfOk result
        (IsOutcomeOfAnswer (answer_of back.now.status back.now.body) begun.now function.now app.now) }
{
    match read_answer(alloc, back.status, back.body.as_slice()) {
        Ok(answer) => outcome_of_answer(alloc, answer, begun, function, app),
        Err(AnswerFault::NoMemory) => Err(NoMemory),
        Err(fault) => {
            let cause = answer_cause(alloc, fault)?;
            failure(alloc, cause.as_str())
        }
    }
}

fn outcome_of_answer(
    alloc: Global,
    answer: Answer,
    begun: &Begun,
    function: &Function,
    app: &App,
) -> Result<(Outcome, Texts), NoMemory>
    ensures { IfOk result (IsAnswered (parts_in answer) begun.now function.now app.now) }
{
    let outcome = outcome_by(alloc, &answer, begun, function, app)?;
    Ok((outcome, answer.logs))
}

fn outcome_by(
    alloc: Global,
    answer: &Answer,
    begun: &Begun,
    function: &Function,
    app: &App,
) -> Result<Outcome, NoMemory>
    ensures { IfOk result (IsAnswerOutcome (parts_in answer.now) begun.now function.now app.now) }
{
    match outputs_of(alloc, answer, begun, function, app) {
        Ok(outputs) => Ok(Outcome::Done { outputs }),
        Err(OutputFault::Expression { binding }) => expression_failure(alloc, binding.as_str()),
        Err(OutputFault::NoMemory) => Err(NoMemory),
    }
}

fn expression_failure(alloc: Global, binding: &str) -> Result<Outcome, NoMemory>
    ensures { IfOk result (λ o. o ≡ FailedIs (codes "expression " ++ binding.now)) }
{
    let cause = Text::new(format!(in alloc; "expression {binding}")?);
    Ok(Outcome::Failed { cause })
}

fn failure(alloc: Global, cause: &str) -> Result<(Outcome, Texts), NoMemory>
    ensures { IfOk result (IsFailure cause.now) }
{
    let cause = Text::from_str(alloc, cause)?;
    Ok((Outcome::Failed { cause }, Texts::new(alloc)))
}

fn wire_cause(fault: WireFault) -> &'static str
    ensures { result.now ≡ wire_cause_lem fault }
{
    match fault {
        WireFault::BadHead => "head",
        WireFault::Chunked => "chunked",
        WireFault::Coded => "coded",
        WireFault::BadLength => "length",
        WireFault::TooLong => "too long",
        WireFault::Cut { .. } => "cut",
        WireFault::ReadFault | WireFault::WriteFault | WireFault::NoMemory => "link",
    }
}

fn answer_cause(alloc: Global, fault: AnswerFault) -> Result<Text, NoMemory>
    ensures { IfOk result (λ t. t ≡ answer_cause_lem fault) }
{
    match fault {
        AnswerFault::Status { given } => Ok(Text::new(format!(in alloc; "status {given}")?)),
        AnswerFault::NotJson => Text::from_str(alloc, "not json"),
        AnswerFault::NotObject => Text::from_str(alloc, "not an object"),
        AnswerFault::NoMemory => Err(NoMemory),
    }
}

fn measured(alloc: Global, invocation: u64, outcome: Outcome) -> Result<Outcome, NoMemory>
    ensures { IfOk result (λ o. o ≡ measured_lem invocation outcome) }
{
    let mut finish = Command::Finish {
        invocation,
        outcome,
    };
    if fits(&finish) {
        return Ok(take_outcome(alloc, &mut finish));
    }
    let cause = Text::from_str(alloc, "too long")?;
    Ok(Outcome::Failed { cause })
}

// Whether the command's entry isn't too long.
fn fits(command: &Command) -> bool
    ensures { result ≡ nat_le (length (entry 0 command.now)) longest_payload }
{
    entry_size(command) <= LONGEST_PAYLOAD as u64
}

fn take_outcome(alloc: Global, command: &mut Command) -> Outcome
    ensures { (invocation : ℕ) (outcome : OutcomeIs) → command.old ≡ Finish invocation outcome
        → result ≡ outcome }
{
    let none = Outcome::Done {
        outputs: Outputs::new(Vec::new(alloc)),
    };
    match command {
        Command::Finish { outcome, .. } => mem::replace(outcome, none),
        _ => none,
    }
}
