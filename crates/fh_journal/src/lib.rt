//! The journal file: its frames, how it is mounted, and how a payload is added.
//!
//! Promised to the layer above, where the disk tells: a journal that was prepared stands for the payloads
//! of its frames, and each image of the disk does. An append that answers Ok adds exactly one, and one
//! that fails none; at each moment of it a crash leaves the payloads from before, or those with the new
//! one. Where its third or fourth call fails the journal is torn: both stay possible until a mend
//! succeeds, and the next append mends first. A file is refused exactly where it is no journal, for
//! its header or the first frame that breaks a rule, and it is left as it is.
//!
//! A call answers a fault of the disk only where the disk's count of faults rose in it, and Ok only where
//! it didn't. `append` and `mend` take no memory.
#![tactic(auto)]

mod faults;
mod frame_reading;
mod frames;
mod journal;
mod laws;
mod mounting;

pub use faults::{AppendFault, FrameRule, MountFault};
pub use frames::{Frame, Frames};
pub use journal::{FIRST_GATE, Journal, gate_behind, room_behind};
pub use laws::files_have_one_reading;
pub use mounting::{Prepared, prepare};

#[cfg(test)]
mod tests;
