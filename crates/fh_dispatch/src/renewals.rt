// Which holds of running invocations go on.
ghost use Rattle.std.specs.Prelude.{◌≡◌, ◌+◌, ◌<◌, ◌≤◌, ◌^◌, ◌++◌, length, option_copied, option_map, IfOk, OnOk};
ghost use Rattle.fh_dispatch.specs.DueRuns.{due_with, dues_with};
ghost use Rattle.fh_dispatch.specs.Edits.{HasNumbers};
ghost use Rattle.fh_dispatch.specs.Effects.{queue_ask_of, lease_ask_of, ruling_of};
ghost use Rattle.fh_dispatch.specs.Renewals.{held_in, lease_in, messages_of, leases_of, message_part, lease_part, parts_of, told_from, receipt_for, receipt_after, renewing, renewing_acts, renewing_messages, renewing_leases, renewals_of};
ghost use Rattle.fh_dispatch.specs.Stores.{others_of, AreReady};

use crate::act::Act;
use crate::due::DueRun;
use crate::ruling::{Effect, HOLD, LeaseEffect, QueueEffect, Ruling};
use crate::stores::Stores;
use crate::terms::lease_name;
use crate::{Job, Running, Work};
use fh_base::{Moment, NoMemory};
use fh_event::{RenewalPart, RenewalParts, Reply};
use fh_leases::{HeldLease, Lease};
use fh_queues::{HeldMessage, Message};
use std::alloc::Global;

impl Work {
    /// The holds of running invocations that are due go on.
    #[tactic(auto, unfolding(crate::specs::Renewals::renewals_of))]
    pub(crate) fn renewals<'a>(
        &self,
        alloc: Global,
        stores: Stores<'_>,
        m: Moment,
    ) -> Result<Ruling<'a>, NoMemory>
        requires numbers { HasNumbers self.now.part }
        requires ready { AreReady stores }
        ensures { IfOk result (λ ruling. ruling_of ruling
            ≡ renewals_of self.now.part (others_of stores.entry) m) }
    {
        let dues = self.due_runs(alloc, stores, m)?;
        renewing(alloc, stores, m, &dues)
    }
}

// All that is due goes on.
fn renewing<'a>(
    alloc: Global,
    stores: Stores<'_>,
    m: Moment,
    dues: &[DueRun<'_>],
) -> Result<Ruling<'a>, NoMemory>
    requires { AreReady stores }
    ensures { IfOk result (λ ruling. ruling_of ruling
        ≡ renewing (others_of stores.entry) m (dues_with dues.now)) }
{
    if dues.is_empty() {
        return Ok(Ruling::Unchanged(Reply::NothingDue));
    }
    let receipt = stores.queues.next_receipt();
    let queues = renewing_messages(alloc, dues)?;
    let leases = renewing_leases(alloc, dues)?;
    let acts = renewing_acts(alloc, receipt, m, dues)?;
    let parts = told_from(alloc, receipt, m, dues)?;
    Ok(Ruling::Changed(Effect {
        queues,
        blobs: None,
        leases,
        acts,
        told: Reply::HoldsRenewed { parts },
    }))
}

fn renewing_messages<'a>(
    alloc: Global,
    dues: &[DueRun<'_>],
) -> Result<Option<QueueEffect<'a>>, NoMemory>
    ensures { IfOk result (λ effect. option_map queue_ask_of effect
        ≡ renewing_messages (messages_of (dues_with dues.now))) }
{
    let messages = messages_of(alloc, dues)?;
    if messages.is_empty() {
        return Ok(None);
    }
    Ok(Some(QueueEffect::Renew { messages }))
}

fn messages_of(alloc: Global, dues: &[DueRun<'_>]) -> Result<Vec<HeldMessage>, NoMemory>
    ensures { IfOk result (λ messages. messages.items ≡ messages_of (dues_with dues.now)) }
{
    let mut messages = Vec::new(alloc);
    for due in dues {
        push_message(&mut messages, due.due_row)?;
    }
    Ok(messages)
}

fn push_message(messages: &mut Vec<HeldMessage>, row: Option<&Message>) -> Result<(), NoMemory>
    ensures { OnOk result (messages.new.items
        ≡ messages.old.items ++ held_in (option_copied row.entry)) }
{
    if let Some(row) = row {
        messages.push(HeldMessage {
            number: row.number,
            receipt: row.receipt,
        })?;
    }
    Ok(())
}

fn renewing_leases(alloc: Global, dues: &[DueRun<'_>]) -> Result<Option<LeaseEffect>, NoMemory>
    ensures { IfOk result (λ effect. option_map lease_ask_of effect
        ≡ renewing_leases (leases_of (dues_with dues.now))) }
{
    let leases = leases_of(alloc, dues)?;
    if leases.is_empty() {
        return Ok(None);
    }
    Ok(Some(LeaseEffect::RenewAll { leases }))
}

fn leases_of(alloc: Global, dues: &[DueRun<'_>]) -> Result<Vec<HeldLease>, NoMemory>
    ensures { IfOk result (λ leases. leases.items ≡ leases_of (dues_with dues.now)) }
{
    let mut leases = Vec::new(alloc);
    for due in dues {
        push_lease(alloc, &mut leases, due.run, due.due_lease)?;
    }
    Ok(leases)
}

fn push_lease(
    alloc: Global,
    leases: &mut Vec<HeldLease>,
    run: &Running,
    lease: Option<&Lease>,
) -> Result<(), NoMemory>
    ensures { OnOk result (leases.new.items
        ≡ leases.old.items ++ lease_in run.now (option_copied lease.entry)) }
{
    if lease.is_some() {
        let name = lease_name(alloc, run.name.as_str())?;
        leases.push(HeldLease {
            name,
            holder: run.invocation,
        })?;
    }
    Ok(())
}

// Each invocation keeps the new receipt of its message.
fn renewing_acts(
    alloc: Global,
    receipt: u64,
    m: Moment,
    dues: &[DueRun<'_>],
) -> Result<Vec<Act>, NoMemory>
    requires { receipt < 2 ^ 63 }
    ensures { IfOk result (λ acts. acts.items ≡ renewing_acts receipt m (dues_with dues.now)) }
{
    let mut acts = Vec::new(alloc);
    let mut next = receipt;
    for due in dues {
        acts.push(Act::RenewRunning {
            invocation: due.run.invocation,
            receipt: receipt_for(next, due.run.job, due.due_row),
            due: due.next(m),
        })?;
        next = receipt_after(next, due.due_row);
    }
    Ok(acts)
}

// The holds that go on, invocation by invocation and the message first.
fn told_from(
    alloc: Global,
    receipt: u64,
    m: Moment,
    dues: &[DueRun<'_>],
) -> Result<RenewalParts, NoMemory>
    requires { receipt < 2 ^ 63 }
    ensures { IfOk result (λ parts. parts ≡ told_from receipt m (dues_with dues.now)) }
{
    let mut parts = Vec::new(alloc);
    let mut next = receipt;
    for due in dues {
        push_parts(&mut parts, next, m, due)?;
        next = receipt_after(next, due.due_row);
    }
    Ok(RenewalParts::new(parts))
}

fn push_parts(
    parts: &mut Vec<RenewalPart>,
    receipt: u64,
    m: Moment,
    due: &DueRun<'_>,
) -> Result<(), NoMemory>
    ensures { OnOk result (parts.new.items
        ≡ parts.old.items ++ parts_of receipt m (due_with due.now)) }
{
    let invocation = due.run.invocation;
    push_message_part(parts, invocation, receipt, m, due.due_row)?;
    push_lease_part(parts, invocation, m, due.due_lease)
}

fn push_message_part(
    parts: &mut Vec<RenewalPart>,
    invocation: u64,
    receipt: u64,
    m: Moment,
    row: Option<&Message>,
) -> Result<(), NoMemory>
    ensures { OnOk result (parts.new.items
        ≡ parts.old.items ++ message_part invocation receipt m (option_copied row.entry)) }
{
    if row.is_some() {
        parts.push(RenewalPart::Message {
            invocation,
            receipt,
            until: m.ms() + HOLD * 1000,
        })?;
    }
    Ok(())
}

fn push_lease_part(
    parts: &mut Vec<RenewalPart>,
    invocation: u64,
    m: Moment,
    lease: Option<&Lease>,
) -> Result<(), NoMemory>
    ensures { OnOk result (parts.new.items
        ≡ parts.old.items ++ lease_part invocation m (option_copied lease.entry)) }
{
    if let Some(lease) = lease {
        parts.push(RenewalPart::Lease {
            invocation,
            until: m.ms() + lease.seconds as u64 * 1000,
        })?;
    }
    Ok(())
}

fn receipt_for(receipt: u64, job: Job, row: Option<&Message>) -> u64
    ensures { result ≡ receipt_for receipt job (option_copied row.entry) }
{
    match (row, job) {
        (Some(_), _) => receipt,
        (None, Job::Message { number: _, receipt }) => receipt,
        (None, Job::Timer { run: _ }) => 0,
    }
}

// The next receipt behind a message that may be due.
fn receipt_after(receipt: u64, row: Option<&Message>) -> u64
    requires { receipt + 1 < 2 ^ 64 }
    ensures next { result ≡ receipt_after receipt (option_copied row.entry) }
    ensures few { result ≤ receipt + 1 }
{
    if row.is_some() {
        return receipt + 1;
    }
    receipt
}
