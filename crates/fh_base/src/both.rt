// An object that bytes come from and go to, as a connection.
ghost use Rattle.std.specs.Prelude.{◌≡◌};

use crate::{Sink, Source};

/// A source that is a sink too. A read leaves what it holds as a sink, and a write what it has left as a
/// source.
pub trait Both: Source + Sink {
    ghost reading_keeps: { (x : Self) → Self.beside_reading x ≡ (Self.written x, Self.write_faults x, Self.writes_surely x) };

    ghost writing_keeps: { (x : Self) → Self.beside_writing x ≡ (Self.left x, Self.most x, Self.read_faults x, Self.reads_surely x) };
}
