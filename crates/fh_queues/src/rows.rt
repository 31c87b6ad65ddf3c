// How a row is made and changed, and the keys by which it is found.
ghost use Rattle.std.specs.Prelude.{◌≡◌, ◌-◌, ◌^◌, ◌<◌, ◌≤◌};
ghost use Rattle.fh_queues.specs.Acts.{changed, numbered};
ghost use Rattle.fh_queues.specs.Index.{IsNoLater};

use crate::act::{NewMessage, RowChange};
use crate::lane::NEVER;
use crate::{Expiry, Message};

/// The greatest key of a message that stands.
pub(crate) const LAST: u64 = NEVER - 1;

/// The row of a new message, with this number and receipt.
pub(crate) fn row_of(new: NewMessage, number: u64, receipt: u64) -> Message
    ensures { result ≡ numbered number receipt new }
{
    let NewMessage {
        queue,
        text,
        put_at,
        visible_at,
        expiry,
        about,
    } = new;
    Message {
        number,
        queue,
        text,
        put_at,
        visible_at,
        expiry,
        count: 0,
        receipt,
        held: false,
        about,
    }
}

/// Changes a row, and gives it the receipt.
pub(crate) fn change_row(row: &mut Message, receipt: u64, change: RowChange)
    ensures { row.new ≡ changed receipt change row.old }
{
    let RowChange {
        visible_at,
        count,
        held,
        text,
    } = change;
    if let Some(text) = text {
        row.text = text;
    }
    if let Some(count) = count {
        row.count = count;
    }
    row.visible_at = visible_at;
    row.receipt = receipt;
    row.held = held;
}

/// The key of a message that is visible from that moment on.
pub(crate) fn key_of(visible_at: u64) -> u64
    ensures early { result ≤ visible_at }
    ensures stands { result < 2 ^ 64 - 1 }
{
    visible_at.min(LAST)
}

/// A key that is no later than the expiry.
pub(crate) fn expiry_key(expiry: &Expiry) -> u64
    ensures { IsNoLater result expiry.now }
{
    match expiry.get() {
        None => NEVER,
        Some(expiry) => expiry,
    }
}
