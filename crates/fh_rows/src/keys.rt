// What rows have to tell, so that they stand in order.
ghost use Rattle.std.specs.Prelude.{◌≡◌};
ghost use Rattle.std.specs.Cmp.{IsTotalOrder};
ghost use Rattle.std.specs.declared.cmp.Ordering.{Ordering as Order};
ghost use Rattle.std.specs.declared.cmp.Ordering.TheVariants.{Equal};
ghost use Rattle.fh_rows.specs.Rows.{IsSpan};

use std::cmp::Ordering;

/// A row that stands in an order by its key. Rows of one key compare as equal.
pub trait Row: Drop {
    /// How a row stands to another.
    ghost order: { Self → Self → Order };

    fn compare(&self, other: &Self) -> Ordering
        ensures { result ≡ order self.now other.now };

    ghost total: { IsTotalOrder order };
}

/// A key of rows, without the rest of a row.
pub trait Key<R: Row> {
    /// A row of this key.
    ghost as_row: { Self → R };

    /// How a row stands to the key.
    fn compare(&self, row: &R) -> Ordering
        ensures { result ≡ R.order row.now (Self.as_row self.now) };
}

/// A part of the order: rows that stand next to each other.
pub trait Span<R: Row> {
    /// How a row stands to the part.
    ghost place: { Self → R → Order };

    fn compare(&self, row: &R) -> Ordering
        ensures { result ≡ place self.now row.now };

    ghost spans: { (span : Self) → IsSpan R.order (place span) };
}

/// A change of rows that leaves their keys.
pub trait Change<R: Row> {
    /// What it makes of a row.
    ghost changed: { Self → R → R };

    fn apply(&self, row: &mut R)
        ensures { row.new ≡ changed self.now row.old };

    ghost keeps: { (change : Self) (row : R) → R.order (changed change row) row ≡ Equal };
}
