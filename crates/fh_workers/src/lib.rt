//! The worker's side of the host: how workers are started and asked, and how connections come in.
//!
//! Promised to the layer above: a `Link` is aimed at one port and keeps the list of the requests that it
//! was asked; an ask that fails is recorded too. A `Spawner` keeps the list of its starts and counts those
//! that no `stop_all` has followed. A `Door` keeps the list of the connections that it accepted, each with
//! its port and the bytes that it gives. Each has a count of faults that never falls: a call fails only
//! where it rose, and ends otherwise only where it didn't. The objects in memory tell all this, and fail at
//! the calls of their plans and where nothing is left to give. The adapters over loopback sockets and
//! processes tell nothing but their counts and how many started workers are left; what a real peer or
//! process does is trusted. Read specs/Links.antt first, then specs/Spawners.antt and specs/Doors.antt.
#![tactic(auto)]

mod door;
mod link;
mod loopback_door;
mod loopback_link;
mod memory_conn;
mod memory_door;
mod memory_link;
mod memory_spawner;
mod process_spawner;
mod spawner;

pub use door::Door;
pub use link::{Link, LinkFault};
pub use loopback_door::{LoopbackConn, LoopbackDoor};
pub use loopback_link::LoopbackLink;
pub use memory_conn::MemoryConn;
pub use memory_door::MemoryDoor;
pub use memory_link::MemoryLink;
pub use memory_spawner::MemorySpawner;
pub use process_spawner::ProcessSpawner;
pub use spawner::{SpawnFault, Spawner, Start};

#[cfg(test)]
mod tests;
