// The receipt of a version that a function has noted.
ghost use Rattle.std.specs.Prelude.{◌≡◌, IfOk};

use crate::mark::{KeptMark, Mark};
use fh_base::{NoMemory, QueueName, Text};
use fh_rows::{Key, Row};
use std::alloc::Global;
use std::cmp::Ordering;
use std::marker::Model;

/// A function has noted this version of a blob.
#[derive(Drop)]
pub struct Receipt {
    /// The function's number.
    pub function: u64,
    pub container: QueueName,
    pub blob: Text,
    pub version: u64,
}

/// A receipt behind a pointer, so that receipts in front of others are put in cheaply.
#[derive(Drop)]
pub(crate) struct KeptReceipt {
    row: Box<Receipt>,
}

impl Model for KeptReceipt {
    ghost use Rattle.fh_blobs.specs.declared.receipt.Receipt.{Receipt};

    ghost Value = { Receipt };

    ghost view = { λ kept. kept.row.value };
}

impl KeptReceipt {
    pub(crate) fn new(alloc: Global, row: Receipt) -> Result<KeptReceipt, NoMemory>
        ensures { IfOk result (λ kept. kept ≡ row) }
    {
        let row = Box::new(alloc, row)?;
        Ok(KeptReceipt { row })
    }

    pub(crate) fn row(&self) -> &Receipt
        ensures { result.now ≡ self.now }
    {
        &self.row
    }
}

/// A receipt that is to be made, with the memory of its mark.
#[derive(Drop)]
pub(crate) struct NewReceipt {
    pub(crate) receipt: KeptReceipt,
    pub(crate) mark: KeptMark,
}

impl Model for NewReceipt {
    ghost use Rattle.std.specs.Prelude.{◌≡◌};
    ghost use Rattle.fh_blobs.specs.declared.receipt.Receipt.{Receipt};
    ghost use Rattle.fh_blobs.specs.Marks.{mark_of};

    ghost Value = { Receipt };

    ghost view = { λ new. new.receipt };

    ghost invariant = { λ new. new.mark ≡ mark_of new.receipt };
}

impl NewReceipt {
    pub(crate) fn new(alloc: Global, row: Receipt) -> Result<NewReceipt, NoMemory>
        ensures { IfOk result (λ new. new ≡ row) }
    {
        let blob = row.blob.copy(alloc)?;
        let mark = KeptMark::new(
            alloc,
            Mark {
                function: row.function,
                container: row.container,
                blob,
            },
        )?;
        let receipt = KeptReceipt::new(alloc, row)?;
        Ok(NewReceipt { receipt, mark })
    }
}

impl Row for KeptReceipt {
    ghost use Rattle.fh_blobs.specs.Part.{by_receipt};
    ghost use Rattle.fh_blobs.specs.Orders.{receipts_total};

    ghost order = { λ a b. by_receipt b.function b.container b.blob b.version a };

    ghost total = { receipts_total };

    fn compare(&self, other: &KeptReceipt) -> Ordering {
        let row = self.row();
        let other = other.row();
        let containers = row.container.as_bytes().cmp(other.container.as_bytes());
        let names = row.blob.as_str().cmp(other.blob.as_str());
        let versions = row.version.cmp(&other.version);
        row.function
            .cmp(&other.function)
            .then(containers.then(names.then(versions)))
    }
}

/// What a receipt is of.
#[derive(Clone, Copy)]
pub(crate) struct ReceiptKey<'a> {
    pub(crate) function: u64,
    pub(crate) container: QueueName,
    pub(crate) name: &'a str,
    pub(crate) version: u64,
}

impl<'a> Key<KeptReceipt> for ReceiptKey<'a> {
    ghost as_row = { λ key. record { function = key.function; container = key.container; blob = key.name.now; version = key.version } };

    fn compare(&self, row: &KeptReceipt) -> Ordering {
        let row = row.row();
        let containers = row.container.as_bytes().cmp(self.container.as_bytes());
        let names = row.blob.as_str().cmp(self.name);
        let versions = row.version.cmp(&self.version);
        row.function
            .cmp(&self.function)
            .then(containers.then(names.then(versions)))
    }
}
