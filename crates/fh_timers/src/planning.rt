// What an ask comes to, before anything changes.
ghost use Rattle.std.specs.Prelude.{◌≡◌};
ghost use Rattle.fh_timers.specs.declared.act.Act.TheVariants.{Keep, Set};
ghost use Rattle.fh_timers.specs.declared.done.TimerDone.TheVariants.{Armed};
ghost use Rattle.fh_timers.specs.Part.{TimerPart};
ghost use Rattle.fh_timers.specs.Outcome.{next_time, missed, due, new_row, after_run, watching, arming, ticking, made_by, outcome};
ghost use Rattle.fh_timers.specs.Edits.{IsIdle, IsPlanOf, planned};

use crate::act::Act;
use crate::{TimerAsk, TimerChange, TimerDone, TimerRow, Timers};
use fh_base::Moment;
use fh_event::PlanFault;
use fh_ncrontab::Schedule;
use std::alloc::Global;

const MILLISECONDS: u64 = 1000;

impl Timers {
    /// The change that an ask makes at a moment. A change that is quiet makes nothing. No rule refuses an ask,
    /// and no memory is taken; the call has the form that it has in each store.
    #[tactic(auto, unfolding(crate::specs::Outcome::acting, crate::specs::Outcome::outcome))]
    pub fn plan(&self, _alloc: Global, ask: &TimerAsk, m: Moment) -> Result<TimerChange, PlanFault>
        requires { IsIdle self.now }
        ensures { IsPlanOf self.now.part (outcome self.now.part ask.now m) result }
    {
        Ok(match *ask {
            TimerAsk::Arm {
                function,
                schedule,
                startup,
                monitor,
                busy,
            } => self.plan_arm(function, &schedule, startup, monitor, busy, m),
            TimerAsk::Tick {
                function,
                schedule,
                busy,
            } => self.plan_tick(function, &schedule, busy, m),
            TimerAsk::Remove { function } => TimerChange {
                act: Act::Remove { function },
                done: TimerDone::Removed,
            },
            TimerAsk::Nothing => keeping(TimerDone::Nothing),
        })
    }

    fn plan_arm(
        &self,
        function: u64,
        schedule: &Schedule,
        startup: bool,
        monitor: bool,
        busy: bool,
        m: Moment,
    ) -> TimerChange
        ensures { planned self.now.part result ≡ made_by self.now.part
            (arming self.now.part function schedule.now startup monitor busy m) }
    {
        if busy {
            return keeping(TimerDone::Running);
        }
        match self.row(function) {
            Some(row) if monitor => watch(row, schedule, startup, m),
            _ => set_anew(function, schedule, startup, m),
        }
    }

    fn plan_tick(&self, function: u64, schedule: &Schedule, busy: bool, m: Moment) -> TimerChange
        ensures { planned self.now.part result ≡ made_by self.now.part
            (ticking self.now.part function schedule.now busy m) }
    {
        let Some(row) = self.row(function) else {
            return keeping(TimerDone::Unarmed);
        };
        if busy {
            return keeping(TimerDone::Running);
        }
        match due(m, row.next) {
            None => keeping(TimerDone::NotDue),
            Some(due) => {
                let row = after_run(row, due, schedule, m);
                let next = row.next;
                TimerChange {
                    act: Act::Set { row },
                    done: TimerDone::Ticked { due, next },
                }
            }
        }
    }
}

// Arms a timer whose row counts.
fn watch(row: &TimerRow, schedule: &Schedule, startup: bool, m: Moment) -> TimerChange
    ensures { (part : TimerPart) → planned part result
        ≡ made_by part (watching row.now schedule.now startup m (missed m row.now.next)) }
{
    if let Some(due) = missed(m, row.next) {
        let row = after_run(row, due, schedule, m);
        let next = row.next;
        return TimerChange {
            act: Act::Set { row },
            done: TimerDone::PastDue { due, next },
        };
    }
    if startup {
        return keeping(TimerDone::Armed {
            next: row.next,
            startup,
        });
    }
    keeping(TimerDone::Same)
}

// Arms a timer that begins anew.
fn set_anew(function: u64, schedule: &Schedule, startup: bool, m: Moment) -> TimerChange
    ensures act { result.act ≡ Set (new_row function schedule.now m) }
    ensures done { result.done ≡ Armed (next_time schedule.now m) startup }
{
    let next = next_time(schedule, m);
    let row = TimerRow {
        function,
        last: None,
        next,
        updated: m.ms(),
    };
    TimerChange {
        act: Act::Set { row },
        done: TimerDone::Armed { next, startup },
    }
}

fn keeping(done: TimerDone) -> TimerChange
    ensures { result ≡ record { act = Keep; done = done } }
{
    TimerChange {
        act: Act::Keep,
        done,
    }
}

// The row behind the run that was due then.
fn after_run(row: &TimerRow, due: u64, schedule: &Schedule, m: Moment) -> TimerRow
    ensures { result ≡ after_run row.now due schedule.now m }
{
    TimerRow {
        function: row.function,
        last: Some(due),
        next: next_time(schedule, m),
        updated: m.ms(),
    }
}

// The stored next time, where it is over.
fn missed(m: Moment, next: Option<u64>) -> Option<u64>
    ensures { result ≡ missed m next }
{
    next.filter(|next| *next < m.ms())
}

// The stored next time, where it has come.
fn due(m: Moment, next: Option<u64>) -> Option<u64>
    ensures { result ≡ due m next }
{
    next.filter(|next| *next <= m.ms())
}

// The least time of the schedule after the second of a moment.
fn next_time(schedule: &Schedule, m: Moment) -> Option<u64>
    ensures { result ≡ next_time schedule.now m }
{
    let second = schedule.next_after((m.ms() / MILLISECONDS) as i64)?;
    Some(second as u64 * MILLISECONDS)
}
