// The blobs, as they are kept, and what is read of them.
ghost use Rattle.std.specs.Prelude.{◌≡◌, option_copied, IfOk};
ghost use Rattle.fh_blobs.specs.Marks.{is_current};
ghost use Rattle.fh_blobs.specs.Part.{no_blobs, blob_of, is_noted, unnoted};
ghost use Rattle.fh_blobs.specs.Edits.{IsIdle};

use crate::ahead::Ahead;
use crate::blob::{BlobKey, KeptBlob, OfContainer};
use crate::marks::Marks;
use crate::receipt::{KeptReceipt, ReceiptKey};
use crate::{BlobRow, Receipt};
use fh_base::{NoMemory, QueueName, Text};
use fh_rows::Rows;
use std::alloc::Global;
use std::marker::Model;

/// Blobs and receipts, each in order, and marks of the blobs that functions have noted as they are.
#[derive(Drop)]
pub struct Blobs {
    pub(crate) blobs: Rows<KeptBlob>,
    pub(crate) receipts: Rows<KeptReceipt>,
    pub(crate) marks: Marks,
    pub(crate) next_version: u64,
}

impl Model for Blobs {
    ghost use Rattle.fh_blobs.specs.Edits.{BlobState};
    ghost use Rattle.fh_blobs.specs.Marks.{AreNoted};

    ghost Value = { BlobState };

    ghost view = { λ b. record {
      part = record { blobs = b.blobs.rows; receipts = b.receipts.rows; next_version = b.next_version };
      blob_room = b.blobs.room;
      receipt_room = b.receipts.room;
      marks = b.marks;
    } };

    ghost invariant = { λ b. AreNoted
        (record { blobs = b.blobs.rows; receipts = b.receipts.rows; next_version = b.next_version })
        b.marks.marks b.marks.functions };
}

impl Blobs {
    /// No blobs. Takes no memory.
    pub fn new(alloc: Global) -> Blobs
        ensures part { result.part ≡ no_blobs }
        ensures idle { IsIdle result }
    {
        Blobs {
            blobs: Rows::new(alloc),
            receipts: Rows::new(alloc),
            marks: Marks::new(alloc),
            next_version: 1,
        }
    }

    /// A blob as it is. Takes no memory.
    pub fn get(&self, container: &QueueName, name: &str) -> Option<&BlobRow>
        ensures { option_copied result ≡ blob_of container.now name.now self.now.part.blobs }
    {
        let key = BlobKey {
            container: *container,
            name,
        };
        match self.blobs.get(&key) {
            Some(kept) => Some(kept.row()),
            None => None,
        }
    }

    /// The names of a container's blobs whose versions a function hasn't noted, in order of bytes.
    pub fn unnoted(
        &self,
        alloc: Global,
        function: u64,
        container: &QueueName,
    ) -> Result<Vec<Text>, NoMemory>
        ensures { IfOk result (λ names. names.items ≡ unnoted self.now.part function container.now) }
    {
        let span = OfContainer {
            container: *container,
        };
        let mut ahead = Ahead {
            blobs: self.blobs.all_at(&span),
            marks: self.marks.of(function, container),
        };
        let mut names = Vec::new(alloc);
        while let Some((row, behind)) = ahead.next() {
            if !self.is_noted(function, row) {
                names.push(row.blob.copy(alloc)?)?;
            }
            ahead = behind;
        }
        Ok(names)
    }

    /// Whether a function has noted this version of a blob.
    pub(crate) fn is_noted(&self, function: u64, row: &BlobRow) -> bool
        ensures { result ≡ is_noted self.now.part function row.now }
    {
        let key = ReceiptKey {
            function,
            container: row.container,
            name: row.blob.as_str(),
            version: row.version,
        };
        self.receipts.get(&key).is_some()
    }
    /// Whether a receipt is of the version that its blob has.
    pub(crate) fn is_current(&self, receipt: &Receipt) -> bool
        ensures { result ≡ is_current self.now.part receipt.now }
    {
        match self.get(&receipt.container, receipt.blob.as_str()) {
            Some(row) => receipt.version == row.version,
            None => false,
        }
    }
}
