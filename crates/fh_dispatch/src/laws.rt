//! What holds of each ask that changes something, where the part before is whole. The first law carries that
//! over every list of asks, from no functions on.

ghost use Rattle.fh_dispatch.specs.Part.{no_work};
ghost use Rattle.fh_dispatch.specs.Laws.{IsWhole, OfEachAsk, StaysWhole, KeepsNumbers, GivesNumbersInTurn, IsAsConfigured, KeepsUnnamed, HasJobsAsAsked, KeepsOtherJobs, KeepsOneRun, KeepsToTheBound, BringsNoOthers, FetchesAsTold, AnswersTheAsk, MovesNumbers, AsksAsItSays, AsksOnlyToRemove, KeepsTimers, ComparesSettings};

/// The numbers of functions were given, no two functions have one number, and a function that runs by a schedule
/// has one.
pub fn parts_stay_whole()
    ensures none { IsWhole no_work }
    ensures each { OfEachAsk StaysWhole }
{}

/// A function keeps its number.
pub fn numbers_are_kept()
    ensures { OfEachAsk KeepsNumbers }
{}

/// Numbers are given from 1 on, each once and none left out.
pub fn numbers_are_given_in_turn()
    ensures { OfEachAsk GivesNumbersInTurn }
{}

/// A function that is configured has the settings, and the number that is answered.
pub fn functions_are_as_configured()
    ensures { OfEachAsk IsAsConfigured }
{}

/// A function that an ask doesn't name stays as it is.
pub fn other_functions_stay()
    ensures { OfEachAsk KeepsUnnamed }
{}

/// A run that is made ready is the last of its function's jobs, and messages that are fetched are the last ones,
/// as they are told. A function that is configured keeps its jobs, and has none where it gets another trigger. A
/// session begins without jobs.
pub fn jobs_are_as_asked()
    ensures { OfEachAsk HasJobsAsAsked }
{}

/// The jobs of a function that an ask isn't about stay as they are.
pub fn other_jobs_stay()
    ensures { OfEachAsk KeepsOtherJobs }
{}

/// Where each run is made ready while no job of its function is in work, no function has two runs in work.
pub fn one_run_stays_one()
    ensures { OfEachAsk KeepsOneRun }
{}

/// Behind each fetch a function has no more jobs in work than a batch beside its threshold.
pub fn fetches_keep_to_the_bound()
    ensures { OfEachAsk KeepsToTheBound }
{}

/// A fetch that changes something asks the queues for a batch of its function's queue, and tells what they take.
pub fn fetches_are_as_told()
    ensures { FetchesAsTold }
{}

/// Only a fetch and a run that is made ready bring their function jobs.
pub fn other_asks_bring_no_jobs()
    ensures { OfEachAsk BringsNoOthers }
{}

/// Each ask that changes something has its own answer.
pub fn asks_have_their_answers()
    ensures { AnswersTheAsk }
{}

/// One number is given at once, at most, and one session begins.
pub fn counters_move_little()
    ensures { MovesNumbers }
{}

/// The queues are asked to make a queue at most where a function is configured, for a batch at most where it
/// fetches, and else for nothing.
pub fn queues_are_asked_as_said()
    ensures { AsksAsItSays }
{}

/// The timers are asked to remove a row or nothing, and only where a function is configured.
pub fn rows_are_only_removed()
    ensures { AsksOnlyToRemove }
{}

/// A function that runs by a schedule did so before, or is new, or its row is removed.
pub fn timers_are_kept_or_removed()
    ensures { OfEachAsk KeepsTimers }
{}

/// Settings count as the same, so that nothing changes, exactly where they are equal.
pub fn same_settings_are_equal()
    ensures { ComparesSettings }
{}
