// The rounds of a sample worker.
ghost use Rattle.std.specs.Prelude.{◌≡◌, ◌==◌, not, true, is_some, IfSome};
ghost use Rattle.fh_base.specs.Ends.{Concludes, plain_code, plain_line};
ghost use Rattle.fh_sample.specs.Rounds.{HasDoorCause, Makes, Works, is_status, is_trial_status, line_at};
ghost use Rattle.fh_sample.specs.Words.{trial_of as trial_of_lem};

use crate::turn::sample_turn;
use crate::words::{Trial, trial_of};
use fh_base::{PlainEnd, Sink, Status, write_last_line};
use fh_wire::WireFault;
use fh_workers::Door;
use std::alloc::Global;

/// Why a round can't be finished.
#[derive(Clone, Copy, Debug, PartialEq, Eq)]
enum RoundFault {
    /// No connection was accepted.
    DoorFault,
    NoMemory,
}

/// Aims the door at the port of the words and accepts a connection a round, each of which is answered. A
/// connection whose request can't be read or answered is closed and counts as a round. The words are those
/// of the command line, the name of the command first. The statuses are 0, 2, 9 and 11 of docs/commands.md.
pub fn sample_worker<D: Door, O: Sink>(
    alloc: Global,
    words: &[String],
    door: &mut D,
    sink: &mut O,
) -> Status
    ensures usage { (result.code == 2) ≡ not (is_some (trial_of_lem words.now)) }
    ensures statuses { is_status result.code ≡ true }
    ensures works { IfSome (trial_of_lem words.now) (λ trial. Works trial
        (D.accepted door.old) (D.accepted door.new)
        (D.door_faults door.old) (D.door_faults door.new) result.code) }
    ensures faces { IfSome (trial_of_lem words.now) (λ trial. D.facing door.new ≡ trial.port) }
    ensures refused { result.code ≡ 2 → door.new ≡ door.old }
    ensures line { Concludes (O.written sink.old) (O.written sink.new) (line_at result.code)
        (O.write_faults sink.old) (O.write_faults sink.new) }
{
    match trial_of(words) {
        Some(trial) => work(alloc, trial, door, sink),
        None => end(sink, PlainEnd::Usage),
    }
}

// Makes the rounds, and tells how they ended.
fn work<D: Door, O: Sink>(alloc: Global, trial: Trial, door: &mut D, sink: &mut O) -> Status
    ensures statuses { is_trial_status result.code ≡ true }
    ensures works { Works trial (D.accepted door.old) (D.accepted door.new)
        (D.door_faults door.old) (D.door_faults door.new) result.code }
    ensures faces { D.facing door.new ≡ trial.port }
    ensures line { Concludes (O.written sink.old) (O.written sink.new) (line_at result.code)
        (O.write_faults sink.old) (O.write_faults sink.new) }
{
    door.aim(trial.port);
    match make_rounds(alloc, door, trial.rounds) {
        Ok(()) => end(sink, PlainEnd::Finished),
        Err(RoundFault::DoorFault) => end(sink, PlainEnd::DoorFault),
        Err(RoundFault::NoMemory) => end(sink, PlainEnd::NoMemory),
    }
}

// Writes the last line of an end.
fn end<O: Sink>(sink: &mut O, end: PlainEnd) -> Status
    ensures code { result.code ≡ plain_code end }
    ensures line { Concludes (O.written sink.old) (O.written sink.new) (plain_line end)
        (O.write_faults sink.old) (O.write_faults sink.new) }
{
    write_last_line(sink, end.last_line());
    Status { code: end.code() }
}

fn make_rounds<D: Door>(alloc: Global, door: &mut D, rounds: u64) -> Result<(), RoundFault>
    ensures makes { Makes (D.facing door.old) rounds (D.accepted door.old) (D.accepted door.new) result }
    ensures faces { D.facing door.new ≡ D.facing door.old }
    ensures cause { HasDoorCause (D.door_faults door.old) (D.door_faults door.new) result }
{
    for round in 0..rounds {
        make_round(alloc, door)?;
    }
    Ok(())
}

// Accepts a connection and answers it. One that can't be read or answered is closed all the same.
fn make_round<D: Door>(alloc: Global, door: &mut D) -> Result<(), RoundFault>
    ensures makes { Makes (D.facing door.old) 1 (D.accepted door.old) (D.accepted door.new) result }
    ensures faces { D.facing door.new ≡ D.facing door.old }
    ensures cause { HasDoorCause (D.door_faults door.old) (D.door_faults door.new) result }
{
    let Ok(mut conn) = door.accept() else {
        return Err(RoundFault::DoorFault);
    };
    if sample_turn(alloc, &mut conn) == Err(WireFault::NoMemory) {
        return Err(RoundFault::NoMemory);
    }
    Ok(())
}
