//! What holds of each ask that changes something, at each moment there is, where the part before is whole. The
//! first law carries that over every list of asks, from no timers on.

ghost use Rattle.fh_timers.specs.Part.{no_timers};
ghost use Rattle.fh_timers.specs.Laws.{IsWhole, OfEachAsk, StaysWhole, RaisesDueTimes, KeepsSchedules, KeepsLater, KeepsOthers, AnswersTheAsk, RunsWhereIdle, RemovesRows};

/// The last due time of a row isn't after the moment at which the row was set, and the next one is.
pub fn timers_stay_whole()
    ensures none { IsWhole no_timers }
    ensures each { OfEachAsk StaysWhole }
{}

/// A due time that is answered is the stored next one, greater than the last one before; then it is the last
/// one, and the next one is greater.
pub fn due_times_rise()
    ensures { OfEachAsk RaisesDueTimes }
{}

/// A next time that is stored is one of the schedule that was given with the ask.
pub fn due_times_are_scheduled()
    ensures { OfEachAsk KeepsSchedules }
{}

/// A due time that was answered stays before the next one, also where the row is made anew: what is over at the
/// moment of an ask, and was before the next time, is before the next time that the ask stores.
pub fn next_times_stay_later()
    ensures { OfEachAsk KeepsLater }
{}

/// The row of a function that an ask isn't about stays as it is.
pub fn other_timers_stay()
    ensures { OfEachAsk KeepsOthers }
{}

/// Each ask that changes something has its own answer.
pub fn asks_have_their_answers()
    ensures { AnswersTheAsk }
{}

/// A run is made ready only where no job of the function is in work.
pub fn runs_are_made_where_none_is()
    ensures { RunsWhereIdle }
{}

/// A function whose row is removed has none.
pub fn removed_rows_are_gone()
    ensures { OfEachAsk RemovesRows }
{}
