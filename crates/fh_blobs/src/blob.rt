// The row of a blob.
ghost use Rattle.std.specs.Prelude.{◌≡◌, IfOk};

use fh_base::{NoMemory, QueueName, Text};
use fh_rows::{Key, Row, Span};
use std::alloc::Global;
use std::cmp::Ordering;
use std::marker::Model;

/// A blob, as it is now.
#[derive(Drop)]
pub struct BlobRow {
    pub container: QueueName,
    pub blob: Text,
    /// Each text that is put has a version of its own.
    pub version: u64,
    pub text: Text,
}

/// A row behind a pointer, so that rows in front of others are put in cheaply.
#[derive(Drop)]
pub(crate) struct KeptBlob {
    row: Box<BlobRow>,
}

impl Model for KeptBlob {
    ghost use Rattle.fh_blobs.specs.declared.blob.BlobRow.{BlobRow};

    ghost Value = { BlobRow };

    ghost view = { λ kept. kept.row.value };
}

impl KeptBlob {
    pub(crate) fn new(alloc: Global, row: BlobRow) -> Result<KeptBlob, NoMemory>
        ensures { IfOk result (λ kept. kept ≡ row) }
    {
        let row = Box::new(alloc, row)?;
        Ok(KeptBlob { row })
    }

    pub(crate) fn row(&self) -> &BlobRow
        ensures { result.now ≡ self.now }
    {
        &self.row
    }

    pub(crate) fn set_version(&mut self, version: u64)
        ensures { self.new ≡ record self.old { version = version } }
    {
        self.row.version = version;
    }
}

impl Row for KeptBlob {
    ghost use Rattle.std.proofs.Common.{rules};
    ghost use Rattle.std.specs.Cmp.Rules.{comparing};
    ghost use Rattle.fh_blobs.specs.Part.{by_blob};

    ghost order = { λ a b. by_blob b.container b.blob a };

    ghost total = { Prim.search (comparing, rules) };

    fn compare(&self, other: &KeptBlob) -> Ordering {
        let row = self.row();
        let other = other.row();
        let names = row.blob.as_str().cmp(other.blob.as_str());
        row.container
            .as_bytes()
            .cmp(other.container.as_bytes())
            .then(names)
    }
}

/// The name of a blob in its container.
#[derive(Clone, Copy)]
pub(crate) struct BlobKey<'a> {
    pub(crate) container: QueueName,
    pub(crate) name: &'a str,
}

impl<'a> Key<KeptBlob> for BlobKey<'a> {
    ghost use Rattle.std.specs.Prelude.{[]};

    ghost as_row = { λ key. record { container = key.container; blob = key.name.now; version = 0; text = [] } };

    fn compare(&self, row: &KeptBlob) -> Ordering {
        let row = row.row();
        let names = row.blob.as_str().cmp(self.name);
        row.container
            .as_bytes()
            .cmp(self.container.as_bytes())
            .then(names)
    }
}

/// All blobs of a container.
#[derive(Clone, Copy)]
pub(crate) struct OfContainer {
    pub(crate) container: QueueName,
}

impl Span<KeptBlob> for OfContainer {
    ghost use Rattle.fh_blobs.specs.Part.{by_container};
    ghost use Rattle.fh_blobs.specs.Orders.{containers_span};

    ghost place = { λ span. by_container span.container };

    ghost spans = { λ span. containers_span span.container };

    fn compare(&self, row: &KeptBlob) -> Ordering {
        row.row()
            .container
            .as_bytes()
            .cmp(self.container.as_bytes())
    }
}
