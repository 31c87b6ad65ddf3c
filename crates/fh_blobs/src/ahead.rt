// Blobs that are still to be looked through, with the marks of some of them.
ghost use Rattle.std.specs.Prelude.{◌≡◌, ◌≤◌, length, MatchOption};
ghost use Rattle.fh_blobs.specs.Ahead.{AreAlike, HasPassed, IsFound, NothingIsLeft, behind_mark};

use crate::BlobRow;
use crate::blob::KeptBlob;
use crate::mark::KeptMark;

#[derive(Clone, Copy)]
pub(crate) struct Ahead<'a> {
    pub(crate) blobs: &'a [KeptBlob],
    pub(crate) marks: &'a [KeptMark],
}

impl<'a> Ahead<'a> {
    /// The first blob that may be unnoted, and what is behind it. Those before it are noted.
    pub(crate) fn next(self) -> Option<(&'a BlobRow, Ahead<'a>)>
        ensures { MatchOption result (NothingIsLeft self.entry.blobs.now self.entry.marks.now)
            (λ found. IsFound self.entry.blobs.now self.entry.marks.now
            found.0.now found.1.blobs.now found.1.marks.now) }
    {
        let ahead = self.behind_noted();
        let (kept, blobs) = ahead.blobs.split_first()?;
        let row = kept.row();
        let marks = behind_mark(ahead.marks, row);
        Some((row, Ahead { blobs, marks }))
    }

    // What is behind the first blobs that are all noted.
    fn behind_noted(self) -> Ahead<'a>
        ensures { HasPassed self.entry.blobs.now self.entry.marks.now result.blobs.now result.marks.now }
    {
        let many = noted_first(self.blobs, self.marks);
        Ahead {
            blobs: &self.blobs[many..],
            marks: &self.marks[many..],
        }
    }
}

// The marks behind that of the blob, if it is the first.
fn behind_mark<'a>(marks: &'a [KeptMark], row: &BlobRow) -> &'a [KeptMark]
    ensures { result.now ≡ behind_mark row.now marks.now }
{
    match marks.split_first() {
        Some((first, rest)) if first.is_of(row) => rest,
        _ => marks,
    }
}

// How many blobs at the beginning all have their marks: since both are in order, that is so exactly where the
// last of so many marks is that of the last of so many blobs.
fn noted_first(blobs: &[KeptBlob], marks: &[KeptMark]) -> usize
    ensures blobs { result ≤ length blobs.now }
    ensures marks { result ≤ length marks.now }
    ensures alike { AreAlike blobs.now marks.now result }
{
    let mut low = 0;
    let mut high = blobs.len().min(marks.len());
    while low < high {
        let middle = low + (high - low) / 2;
        if marks[middle].is_of(blobs[middle].row()) {
            low = middle + 1;
        } else {
            high = middle;
        }
    }
    low
}
