// The top call of the script.
ghost use Rattle.std.specs.Prelude.{◌≡◌, ◌⊎◌, ◌==◌, ◌<◌, [], true, not, IfNone, MatchOption};
ghost use Rattle.fh_base.specs.Ends.{Concludes, plain_code, plain_line};
ghost use Rattle.fh_disk.specs.Disk.{StaysTold};
ghost use Rattle.fh_script.specs.Answerer.{HoldsIn, StaysToldIn};
ghost use Rattle.fh_script.specs.Ends.{code_of, code_so_far, is_of_lines};
ghost use Rattle.fh_script.specs.Outside.{Counts, Outside, crash_of, outside_of};
ghost use Rattle.fh_script.specs.Running.{EndsWith, RunsOn, outside_in};
ghost use Rattle.fh_script.specs.Script.{EndsBy, HasReason, IsReady, NoneRose, SurvivesCrash, is_certain, is_script};

use crate::answerer::Answerer;
use crate::lines::read_line;
use fh_base::{PlainEnd, Sink, Source, Status, write_all, write_last_line};
use fh_disk::Disk;
use fh_hub::{HubFault, prepare, write_unmounted};
use fh_journal::files_have_one_reading;
use std::alloc::Global;

/// Answers the lines of the source in order over the journal, and writes each answer before the next
/// line is read. The words are those of the command line, the name of the command first. The status is
/// 0 where the source was read to its end; docs/commands.md has the others, each with its last line.
/// The checkpoint is left alone.
#[tactic(auto, using(crate::proofs::LineReading::not_long))]
pub fn script<S: Source, O: Sink, J: Disk, K: Disk>(
    alloc: Global,
    words: &[String],
    source: &mut S,
    sink: &mut O,
    journal: &mut J,
    _checkpoint: &mut K,
) -> Status
    ensures usage { (result.code == 2) ≡ not (is_script words.now) }
    ensures ends { EndsBy (outside_of S.Source O.Sink J.Disk source.old sink.old journal.old)
        (outside_of S.Source O.Sink J.Disk source.new sink.new journal.new)
        (crash_of J.Disk journal.old journal.new) result.code }
    ensures complete { is_script words.now ≡ true
        → IsReady (outside_of S.Source O.Sink J.Disk source.old sink.old journal.old)
        → NoneRose (outside_of S.Source O.Sink J.Disk source.old sink.old journal.old)
        (outside_of S.Source O.Sink J.Disk source.new sink.new journal.new)
        → (result.code ≡ 0) ⊎ (result.code ≡ 9) }
    ensures passed { result.code ≡ 0 → (S.read_faults source.new ≡ S.read_faults source.old)
        × (O.write_faults sink.new ≡ O.write_faults sink.old)
        × (J.disk_faults journal.new ≡ J.disk_faults journal.old) }
    ensures told { StaysTold (J.told journal.old) (J.told journal.new) }
    ensures durable { is_certain result.code ≡ true
        → SurvivesCrash (J.told journal.new) (J.may_leave journal.new) }
    ensures unasked { result.code ≡ 2 → (source.new ≡ source.old) × (journal.new ≡ journal.old) }
    ensures unread { result.code ≡ 4 → source.new ≡ source.old }
    ensures checkpoint { _checkpoint.new ≡ _checkpoint.old }
{
    match run(alloc, words, source, sink, journal) {
        Ok(end) => conclude(sink, end),
        Err(fault) => Status {
            code: write_unmounted(alloc, sink, fault).code(),
        },
    }
}

/// Whether the words are those of this command: its name, the journal's path and the checkpoint's.
pub fn is_script(words: &[String]) -> bool
    ensures { result ≡ is_script words.now }
{
    match words {
        [verb, _journal, _checkpoint] => verb.as_str() == "script",
        _ => false,
    }
}

// Writes the last line of an end. The status stays where the line can't be written.
fn conclude<O: Sink>(sink: &mut O, end: PlainEnd) -> Status
    ensures status { result.code ≡ plain_code end }
    ensures passed { plain_line end ≡ [] → O.write_faults sink.new ≡ O.write_faults sink.old }
    ensures written { Concludes (O.written sink.old) (O.written sink.new) (plain_line end)
        (O.write_faults sink.old) (O.write_faults sink.new) }
{
    write_last_line(sink, end.last_line());
    Status { code: end.code() }
}

// Tests the words, mounts the journal, and answers the lines.
fn run<S: Source, O: Sink, J: Disk>(
    alloc: Global,
    words: &[String],
    source: &mut S,
    sink: &mut O,
    journal: &mut J,
) -> Result<PlainEnd, HubFault>
    ensures reason { HasReason (outside_of S.Source O.Sink J.Disk source.old sink.old journal.old)
        (outside_of S.Source O.Sink J.Disk source.new sink.new journal.new)
        (crash_of J.Disk journal.old journal.new) result }
    ensures counts { Counts (outside_of S.Source O.Sink J.Disk source.old sink.old journal.old)
        (outside_of S.Source O.Sink J.Disk source.new sink.new journal.new) (code_of result) }
    ensures told { StaysTold (J.told journal.old) (J.told journal.new) }
    ensures durable { is_certain (code_of result) ≡ true
        → SurvivesCrash (J.told journal.new) (J.may_leave journal.new) }
    ensures usage { (code_of result == 2) ≡ not (is_script words.now) }
    ensures unasked { code_of result ≡ 2 → (source.new ≡ source.old) × (journal.new ≡ journal.old) }
    ensures unread { code_of result ≡ 4 → source.new ≡ source.old }
{
    if !is_script(words) {
        return Ok(PlainEnd::Usage);
    }
    let state = match prepare(alloc, journal) {
        Ok(state) => state,
        Err(fault) => return Err(fault),
    };
    let mut answerer = Answerer::over(alloc, journal, state);
    let end = answer_lines(alloc, source, sink, &mut answerer);
    answerer.close();
    files_have_one_reading();
    Ok(end)
}

// Answers the lines from the first on, and says how they end.
#[tactic(auto, using(crate::proofs::Turning::counts_on))]
fn answer_lines<S: Source, O: Sink, J: Disk>(
    alloc: Global,
    source: &mut S,
    sink: &mut O,
    answerer: &mut Answerer<'_, J>,
) -> PlainEnd
    requires holds { HoldsIn answerer.old.hub }
    ensures ends { (was : Outside) (first : J)
        → RunsOn S.Source O.Sink was first source.old sink.old answerer.old
        → EndsWith S.Source O.Sink was first source.new sink.new answerer.new result }
    ensures counts { Counts (outside_in S.Source O.Sink source.old sink.old answerer.old)
        (outside_in S.Source O.Sink source.new sink.new answerer.new) (plain_code result) }
    ensures of_lines { is_of_lines (plain_code result) ≡ true }
    ensures told { StaysToldIn answerer.old answerer.new }
    ensures holds { is_certain (plain_code result) ≡ true → HoldsIn answerer.new.hub }
    ensures same { answerer.new.hub.journal.disk.ghost_name ≡ answerer.old.hub.journal.disk.ghost_name }
{
    let mut line = Vec::new(alloc);
    loop {
        match answer_next(alloc, source, sink, answerer, &mut line) {
            Some(end) => return end,
            None => {}
        }
    }
}

// Answers the next line, and says how the lines end where they do.
fn answer_next<S: Source, O: Sink, J: Disk>(
    alloc: Global,
    source: &mut S,
    sink: &mut O,
    answerer: &mut Answerer<'_, J>,
    line: &mut Vec<u8>,
) -> Option<PlainEnd>
    requires holds { HoldsIn answerer.old.hub }
    ensures goes { (was : Outside) (first : J)
        → RunsOn S.Source O.Sink was first source.old sink.old answerer.old
        → MatchOption result (RunsOn S.Source O.Sink was first source.new sink.new answerer.new)
        (EndsWith S.Source O.Sink was first source.new sink.new answerer.new) }
    ensures counts { Counts (outside_in S.Source O.Sink source.old sink.old answerer.old)
        (outside_in S.Source O.Sink source.new sink.new answerer.new) (code_so_far result) }
    ensures of_lines { is_of_lines (code_so_far result) ≡ true }
    ensures told { StaysToldIn answerer.old answerer.new }
    ensures holds { is_certain (code_so_far result) ≡ true → HoldsIn answerer.new.hub }
    ensures less { IfNone result (S.most source.new < S.most source.old) }
    ensures same { answerer.new.hub.journal.disk.ghost_name ≡ answerer.old.hub.journal.disk.ghost_name }
{
    match read_line(source, line) {
        Ok(true) => {}
        Ok(false) => return Some(PlainEnd::Finished),
        Err(fault) => return Some(PlainEnd::from(fault)),
    }
    let line = line.as_slice();
    let text = match answerer.answer(alloc, line) {
        Ok(text) => text,
        Err(fault) => return Some(PlainEnd::from(fault)),
    };
    match write_all(sink, text.as_bytes()) {
        Ok(()) => {}
        Err(_) => return Some(PlainEnd::WriteFault),
    }
    if !line.ends_with(b"\n") {
        return Some(PlainEnd::Finished);
    }
    None
}
