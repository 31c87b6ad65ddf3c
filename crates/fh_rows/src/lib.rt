//! Rows in order of a key, each key once.
//!
//! Promised to the layer above: contracts see the list of rows, in order, and for how many more there is
//! room. `get` finds the row at a key, `all_at` those of a part of the order; `set` puts a row in its place,
//! where it replaces one with the same key, and `change` changes a row where it stands. `remove` takes a row
//! out, `remove_all` those of a part of the order, and `clear` all. After `reserve` none of them takes memory. A
//! search costs the logarithm of the rows; a row that comes or goes moves those behind it.
//! Read `specs/Rows.antt` first.
#![tactic(auto)]

mod keys;
mod rows;

pub use keys::{Change, Key, Row, Span};
pub use rows::Rows;
