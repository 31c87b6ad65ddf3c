// What a job and an invocation hold: a message by its receipt, and a lease.
ghost use Rattle.std.specs.Prelude.{◌≡◌, Some, option_copied};
ghost use Rattle.fh_leases.specs.Part.{lease_of};
ghost use Rattle.fh_dispatch.specs.Holds.{held_by, hidden_at, held_row, message_due, never};

use fh_base::Moment;
use fh_leases::{Lease, Leases};
use fh_queues::{Message, Queues};

/// What holds nothing is never due.
pub(crate) const NEVER: u64 = 18446744073709551614;

/// How long before a held message is visible again it may be renewed, in milliseconds.
pub(crate) const EARLY: u64 = 300_000;

/// The live message of this number, where it has this receipt. Takes no memory.
pub(crate) fn held_row(queues: &Queues, number: u64, receipt: u64, m: Moment) -> Option<&Message>
    ensures { option_copied result ≡ held_row queues.now.part number receipt m }
{
    let row = queues.row(number, m)?;
    if row.receipt == receipt {
        return Some(row);
    }
    None
}

/// The message, where it is hidden at that moment. Takes no memory.
pub(crate) fn hidden_at(m: Moment, row: Option<&Message>) -> Option<&Message>
    ensures { option_copied result ≡ hidden_at m (option_copied row.entry) }
{
    let row = row?;
    if m.ms() < row.visible_at {
        return Some(row);
    }
    None
}

/// The moment from which on the hold of a message may be renewed. Takes no memory.
pub(crate) fn message_due(row: &Message) -> u64
    ensures { result ≡ message_due (Some row.now) }
{
    row.visible_at.saturating_sub(EARLY)
}

/// The lease of this name, where that is its last holder. Takes no memory.
pub(crate) fn held_lease<'a>(leases: &'a Leases, name: &str, holder: u64) -> Option<&'a Lease>
    ensures { option_copied result ≡ held_by holder (lease_of name.now leases.entry.now.part.leases) }
{
    let lease = leases.lease_of(name)?;
    if lease.holder == holder {
        return Some(lease);
    }
    None
}
