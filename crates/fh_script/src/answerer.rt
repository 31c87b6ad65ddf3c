// What answers lines: a hub, and the moment that lines hand in.
ghost use Rattle.std.specs.Prelude.{◌≡◌, ◌++◌, [], ◌∷◌, Some, OnErr, OnOk, string_bytes};
ghost use Rattle.fh_event.specs.Lines.{answer_line as answer_line_of};
ghost use Rattle.fh_script.specs.Answerer.{IsText};
ghost use Rattle.fh_script.specs.Machine.{at_text, fault_text, moment_after, printed};

use crate::faults::{AnswerFault, WordFault};
use crate::grammar::{LineAsk, line_ask};
use fh_base::{Moment, NoMemory, Rule};
use fh_disk::Disk;
use fh_event::{Command, Reply, StepFault, answer_text};
use fh_hub::{Hub, State};
use std::alloc::{AllocError, Global};

/// Answers lines over a journal: its hub, and the moment that lines hand in, in milliseconds.
#[derive(Drop)]
pub struct Answerer<'d, J: Disk> {
    pub hub: Hub<'d, J>,
    pub now: u64,
}

impl<'d, J: Disk> Answerer<'d, J> {
    ghost use Rattle.std.specs.Prelude.{◌≡◌, false, IfOk, IfErr, string_bytes};
    ghost use Rattle.fh_hub.specs.Hub.{LeavesSince, faults_of};
    ghost use Rattle.fh_hub.specs.State.{IsIdle};
    ghost use Rattle.fh_script.specs.Answerer.{CountsAnswer, HasDone, HasNoAnswer, Holds, HoldsIn, StandsEither, StaysToldIn, done_in, made_in};

    /// Over a disk whose journal was prepared, at the moment 0. Takes no memory.
    pub fn over(alloc: Global, disk: &'d mut J, state: State) -> Answerer<'d, J>
        requires { IsIdle state }
        ensures same { result.hub.journal.disk.ghost_name ≡ disk.entry.ghost_name }
        ensures disk { result.hub.journal.disk.now ≡ disk.entry.now }
        ensures state { result.hub.state ≡ state }
        ensures holds { Holds (J.told disk.entry.now) (J.may_leave disk.entry.now) state.history state.gate
            → HoldsIn result.hub }
        ensures now { result.now ≡ 0 }
    {
        Answerer {
            hub: Hub::over(alloc, disk, state),
            now: 0,
        }
    }

    /// Gives the disk back.
    pub fn close(self) -> &'d mut J
        ensures same { result.ghost_name ≡ self.entry.hub.journal.disk.ghost_name }
        ensures disk { result.now ≡ self.entry.hub.journal.disk.now }
    {
        let hub = self.hub;
        hub.close()
    }

    /// Does what a line says, and gives the text that answers it: empty for a line of no words. Where that
    /// text finds no memory the step may have been made.
    #[tactic(auto, unfolding(crate::specs::Machine::answer_line), using(crate::proofs::Crashes::leaves_as_was))]
    pub fn answer(&mut self, alloc: Global, line: &[u8]) -> Result<String, AnswerFault>
        requires holds { HoldsIn self.old.hub }
        ensures done { IfOk result
            (λ text. HasDone self.old self.new (done_in self.old line.now) (string_bytes text)) }
        ensures fault { IfErr result (HasNoAnswer self.old self.new (done_in self.old line.now)) }
        ensures any_moment { LeavesSince self.old.hub self.new.hub
            (StandsEither self.old.hub.state.history (done_in self.old line.now).entries) }
        ensures counts { CountsAnswer (faults_of self.old.hub) (faults_of self.new.hub) result }
        ensures told { StaysToldIn self.old self.new }
        ensures same { self.new.hub.journal.disk.ghost_name ≡ self.old.hub.journal.disk.ghost_name }
    {
        match line_ask(alloc, line) {
            Ok(LineAsk::Blank) => Ok(String::new(alloc)),
            Ok(LineAsk::At { ms }) => set_moment(&mut self.now, alloc, ms),
            Ok(LineAsk::Ask(command)) => self.step(alloc, &command),
            Err(WordFault::NoMemory) => Err(AnswerFault::NoMemory),
            Err(fault) => fault_line(alloc, fault),
        }
    }

    #[tactic(auto, using(crate::proofs::Crashes::held, crate::proofs::Crashes::leaves_either))]
    fn step(&mut self, alloc: Global, command: &Command) -> Result<String, AnswerFault>
        requires holds { HoldsIn self.old.hub }
        ensures done { IfOk result
            (λ text. HasDone self.old self.new (made_in self.old command.now) (string_bytes text)) }
        ensures fault { IfErr result (HasNoAnswer self.old self.new (made_in self.old command.now)) }
        ensures any_moment { LeavesSince self.old.hub self.new.hub
            (StandsEither self.old.hub.state.history (made_in self.old command.now).entries) }
        ensures counts { CountsAnswer (faults_of self.old.hub) (faults_of self.new.hub) result }
        ensures told { StaysToldIn self.old self.new }
        ensures same { self.new.hub.journal.disk.ghost_name ≡ self.old.hub.journal.disk.ghost_name }
    {
        let stepped = self.hub.step(alloc, command, self.now);
        match &stepped {
            Ok(reply) => answer_line(alloc, Ok(reply)),
            Err(StepFault::Rule(rule)) => answer_line(alloc, Err(rule)),
            Err(StepFault::NoMemory) => Err(AnswerFault::NoMemory),
            Err(StepFault::DiskFault) => Err(AnswerFault::DiskFault),
        }
    }
}

// Takes the moment that later lines hand in, where it isn't too late, and gives the answer.
fn set_moment(now: &mut u64, alloc: Global, ms: u64) -> Result<String, AnswerFault>
    ensures text { IsText result (at_text ms) }
    ensures moment { OnOk result (now.new ≡ moment_after now.old ms) }
    ensures fault { OnErr result (now.new ≡ now.old) }
{
    if Moment::new(ms).is_none() {
        return answer_line(alloc, Err(&Rule::MomentTooLate));
    }
    let text = format!(in alloc; "at {ms}\n")?;
    *now = ms;
    Ok(text)
}

// An answer on a line of its own.
fn answer_line(alloc: Global, answer: Result<&Reply, &Rule>) -> Result<String, AnswerFault>
    ensures { IsText result (answer_line_of answer.entry) }
{
    let mut text = answer_text(alloc, answer)?;
    text.push_str("\n")?;
    Ok(text)
}

fn fault_line(alloc: Global, fault: WordFault) -> Result<String, AnswerFault>
    ensures { IsText result (fault_text fault) }
{
    let text = match fault {
        WordFault::BadText => "bad text\n",
        WordFault::BadWord => "bad word\n",
        WordFault::BadCount => "bad count\n",
        WordFault::BadNumber => "bad number\n",
        WordFault::BadSchedule => "bad schedule\n",
        WordFault::NoMemory => return Err(AnswerFault::NoMemory),
    };
    Ok(String::from_str(alloc, text)?)
}
