// Running invocations of which a hold is due.
ghost use Rattle.std.specs.Prelude.{◌≡◌, ◌++◌, ◌∷◌, [], filter, option_copied, IfOk, OnOk};
ghost use Rattle.fh_dispatch.specs.DueRuns.{due_with, dues_with};
ghost use Rattle.fh_dispatch.specs.Holds.{lease_held};
ghost use Rattle.fh_dispatch.specs.Renewals.{row_held, row_if_due, lease_if_due, unless_free, due_at, is_due, due_runs, row_due_next, lease_due_next, due_next};
ghost use Rattle.fh_dispatch.specs.Stores.{others_of};

use crate::holds::{EARLY, NEVER, held_lease, held_row, message_due};
use crate::stores::Stores;
use crate::terms::lease_name;
use crate::{Job, Running, Work};
use fh_base::{Moment, NoMemory};
use fh_leases::{Lease, Leases};
use fh_queues::{Message, Queues};
use std::alloc::Global;

/// How long before its end a lease may be renewed, in milliseconds for each of its seconds.
const HALF: u64 = 500;

/// A running invocation with what it holds, and with what of that is due.
#[derive(Clone, Copy)]
pub(crate) struct DueRun<'a> {
    pub(crate) run: &'a Running,
    pub(crate) row: Option<&'a Message>,
    pub(crate) lease: Option<&'a Lease>,
    pub(crate) due_row: Option<&'a Message>,
    pub(crate) due_lease: Option<&'a Lease>,
}

impl Work {
    /// Those of which a hold is due, in order of number.
    pub(crate) fn due_runs<'a>(
        &'a self,
        alloc: Global,
        stores: Stores<'a>,
        m: Moment,
    ) -> Result<Vec<DueRun<'a>>, NoMemory>
        ensures { IfOk result (λ dues. dues_with dues.items
            ≡ due_runs self.entry.now.part (others_of stores.entry) m) }
    {
        let mut dues = Vec::new(alloc);
        let runs = self.running.due_by(alloc, m.ms())?;
        for run in &runs {
            let due = self.due_at(alloc, run, stores, m)?;
            push_due(&mut dues, due)?;
        }
        Ok(dues)
    }

    fn due_at<'a>(
        &self,
        alloc: Global,
        run: &'a Running,
        stores: Stores<'a>,
        m: Moment,
    ) -> Result<DueRun<'a>, NoMemory>
        ensures { IfOk result (λ due. due_with due
            ≡ due_at self.now.part (others_of stores.entry) m run.entry.now) }
    {
        let name = run.name.as_str();
        let row = row_held(stores.queues, run.job, m);
        let lease = lease_held(alloc, stores.leases, name, run.invocation)?;
        let singleton = self.terms_of(name).singleton;
        Ok(DueRun {
            run,
            row,
            lease,
            due_row: row_if_due(m, row),
            due_lease: lease_if_due(m, unless_free(singleton, lease)),
        })
    }
}

impl<'a> DueRun<'a> {
    /// When one of its holds may be renewed the next time. Takes no memory.
    pub(crate) fn next(&self, m: Moment) -> u64
        ensures { result ≡ due_next m (due_with self.now) }
    {
        let row = row_due_next(m, self.row, self.due_row);
        row.min(lease_due_next(m, self.lease, self.due_lease))
    }

    fn is_due(&self) -> bool
        ensures { result ≡ is_due (due_with self.now) }
    {
        self.due_row.is_some() || self.due_lease.is_some()
    }
}

fn push_due<'a>(dues: &mut Vec<DueRun<'a>>, due: DueRun<'a>) -> Result<(), NoMemory>
    ensures { OnOk result (dues_with dues.new.items
        ≡ dues_with dues.old.items ++ filter is_due (due_with due.entry ∷ [])) }
{
    if due.is_due() {
        dues.push(due)?;
    }
    Ok(())
}

// The message that a job holds.
fn row_held<'a>(queues: &'a Queues, job: Job, m: Moment) -> Option<&'a Message>
    ensures { option_copied result ≡ row_held queues.entry.now.part m job }
{
    match job {
        Job::Message { number, receipt } => held_row(queues, number, receipt, m),
        Job::Timer { run: _ } => None,
    }
}

fn row_if_due<'a>(m: Moment, row: Option<&'a Message>) -> Option<&'a Message>
    ensures { option_copied result ≡ row_if_due m (option_copied row.entry) }
{
    let row = row?;
    if row.visible_at <= m.ms() + EARLY {
        return Some(row);
    }
    None
}

// The function's lease, where this invocation is its last holder.
fn lease_held<'a>(
    alloc: Global,
    leases: &'a Leases,
    function: &str,
    invocation: u64,
) -> Result<Option<&'a Lease>, NoMemory>
    ensures { IfOk result (λ lease. option_copied lease
        ≡ lease_held leases.entry.now.part function.now invocation) }
{
    let name = lease_name(alloc, function)?;
    Ok(held_lease(leases, name.as_str(), invocation))
}

fn unless_free<'a>(seconds: u64, lease: Option<&'a Lease>) -> Option<&'a Lease>
    ensures { option_copied result ≡ unless_free seconds (option_copied lease.entry) }
{
    if seconds == 0 {
        return None;
    }
    lease
}

fn lease_if_due<'a>(m: Moment, lease: Option<&'a Lease>) -> Option<&'a Lease>
    ensures { option_copied result ≡ lease_if_due m (option_copied lease.entry) }
{
    let lease = lease?;
    if lease.until <= m.ms() + lease.seconds as u64 * HALF {
        return Some(lease);
    }
    None
}

// From when on the message may be renewed the next time.
fn row_due_next(m: Moment, row: Option<&Message>, due: Option<&Message>) -> u64
    ensures { result ≡ row_due_next m (option_copied row.entry) (option_copied due.entry) }
{
    match (due, row) {
        (Some(_), _) => m.ms() + EARLY,
        (None, Some(row)) => message_due(row),
        (None, None) => NEVER,
    }
}

// And the lease.
fn lease_due_next(m: Moment, lease: Option<&Lease>, due: Option<&Lease>) -> u64
    ensures { result ≡ lease_due_next m (option_copied lease.entry) (option_copied due.entry) }
{
    match (due, lease) {
        (Some(due), _) => m.ms() + due.seconds as u64 * HALF,
        (None, Some(lease)) => lease.until.saturating_sub(lease.seconds as u64 * HALF),
        (None, None) => NEVER,
    }
}
