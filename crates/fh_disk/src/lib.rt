//! A file on a disk: what its calls give and write, what a crash may leave of it, and when it fails.
//!
//! Promised to the layers above: a `Disk` reads what was written; what a crash at any moment may leave
//! is said by the images, and after a sync that succeeded they are what reads give. Nothing is said of
//! these where a disk doesn't tell. A call fails only where the disk's count of faults rose in it, and
//! passes only where it didn't. Over any disk, `read_fully` reads a piece whole, `write_durably` writes one
//! before a sync, and `write_pieces` many.
//!
//! A recording `MemoryDisk` tells all. Its images are any bytes at the places that writes since the last
//! sync have named and past the old end, at any length up to the greatest since, and the synced bytes
//! elsewhere. It fails at the calls of its plan, and where memory is refused. A plain one tells
//! nothing, and its calls that don't make the file longer take no memory. A `FileDisk` is a file of the
//! host, locked while it is open; that it keeps to the model is trusted. Read specs/Disk.antt first.
#![tactic(auto)]

mod content;
mod disk;
mod draw;
mod file_disk;
mod image;
mod memory_disk;
mod pieces;
mod reading;
mod record;
mod writing;

pub use disk::Disk;
pub use file_disk::{FileDisk, Locking};
pub use memory_disk::MemoryDisk;
pub use pieces::{Piece, write_pieces};
pub use reading::read_fully;
pub use record::Call;
pub use writing::write_durably;

#[cfg(test)]
mod tests;
