// The mark of a blob that a function has noted as it is.
ghost use Rattle.std.specs.Prelude.{◌≡◌, IfOk};
ghost use Rattle.std.specs.Str.{bytes_eq};

use crate::BlobRow;
use fh_base::{NoMemory, QueueName, Text};
use fh_rows::{Key, Row, Span};
use std::alloc::Global;
use std::cmp::Ordering;
use std::marker::Model;

/// The function has noted the version that the blob has.
#[derive(Drop)]
pub(crate) struct Mark {
    /// The function's number.
    pub(crate) function: u64,
    pub(crate) container: QueueName,
    pub(crate) blob: Text,
}

/// A mark behind a pointer, so that marks in front of others are put in cheaply.
#[derive(Drop)]
pub(crate) struct KeptMark {
    row: Box<Mark>,
}

impl Model for KeptMark {
    ghost use Rattle.fh_blobs.specs.declared.mark.Mark.{Mark};

    ghost Value = { Mark };

    ghost view = { λ kept. kept.row.value };
}

impl KeptMark {
    pub(crate) fn new(alloc: Global, row: Mark) -> Result<KeptMark, NoMemory>
        ensures { IfOk result (λ kept. kept ≡ row) }
    {
        let row = Box::new(alloc, row)?;
        Ok(KeptMark { row })
    }

    /// The function's number.
    pub(crate) fn function(&self) -> u64
        ensures { result ≡ self.now.function }
    {
        self.row.function
    }

    /// Whether the mark, which is of the blob's container, is of the blob.
    pub(crate) fn is_of(&self, row: &BlobRow) -> bool
        ensures { result ≡ bytes_eq self.now.blob row.now.blob }
    {
        self.row.blob.as_str() == row.blob.as_str()
    }
}

impl Row for KeptMark {
    ghost use Rattle.fh_blobs.specs.Marks.{by_mark};
    ghost use Rattle.fh_blobs.specs.Orders.{marks_total};

    ghost order = { λ a b. by_mark b.function b.container b.blob a };

    ghost total = { marks_total };

    fn compare(&self, other: &KeptMark) -> Ordering {
        let row = &self.row;
        let other = &other.row;
        let containers = row.container.as_bytes().cmp(other.container.as_bytes());
        let names = row.blob.as_str().cmp(other.blob.as_str());
        row.function
            .cmp(&other.function)
            .then(containers)
            .then(names)
    }
}

/// What a mark is of.
#[derive(Clone, Copy)]
pub(crate) struct MarkKey<'a> {
    pub(crate) function: u64,
    pub(crate) container: QueueName,
    pub(crate) name: &'a str,
}

impl<'a> Key<KeptMark> for MarkKey<'a> {
    ghost as_row = { λ key. record { function = key.function; container = key.container; blob = key.name.now } };

    fn compare(&self, row: &KeptMark) -> Ordering {
        let row = &row.row;
        let containers = row.container.as_bytes().cmp(self.container.as_bytes());
        let names = row.blob.as_str().cmp(self.name);
        row.function
            .cmp(&self.function)
            .then(containers)
            .then(names)
    }
}

/// All marks of a function in a container.
#[derive(Clone, Copy)]
pub(crate) struct OfFunction {
    pub(crate) function: u64,
    pub(crate) container: QueueName,
}

impl Span<KeptMark> for OfFunction {
    ghost use Rattle.fh_blobs.specs.Marks.{by_function};
    ghost use Rattle.fh_blobs.specs.Orders.{functions_span};

    ghost place = { λ span. by_function span.function span.container };

    ghost spans = { λ span. functions_span span.function span.container };

    fn compare(&self, row: &KeptMark) -> Ordering {
        let row = &row.row;
        let containers = row.container.as_bytes().cmp(self.container.as_bytes());
        row.function.cmp(&self.function).then(containers)
    }
}

/// A function that has marks, or had some.
#[derive(Drop)]
pub(crate) struct Function {
    pub(crate) number: u64,
}

impl Row for Function {
    ghost use Rattle.std.specs.Ordering.{nat_cmp};
    ghost use Rattle.fh_blobs.specs.Orders.{numbers_total};

    ghost order = { λ a b. nat_cmp a.number b.number };

    ghost total = { numbers_total };

    fn compare(&self, other: &Function) -> Ordering {
        self.number.cmp(&other.number)
    }
}
