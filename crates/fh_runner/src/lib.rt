//! The runner: what the host does with one connection, over anything that makes steps.
//!
//! Promised to the layer above:
//! - `front_over` reads one request and makes exactly the turn that it asks for, with its command and the
//!   moment handed in, and writes exactly the response to the turn's answer. A request that can't be read
//!   or is no command, and a stop, make no turn, and have the responses of their own.
//! - It answers `Stop` exactly for a request that is read as a stop, also where its response can't be
//!   written, and `Fault` for the fault of reading the request, or else of writing its response. After a
//!   fault of the connection nothing more is written, and after one of writing some of the response's
//!   front is.
//!
//! Read `specs/Connections.antt` first, and then `Serving`.
#![tactic(auto)]

mod front;
mod front_end;
pub mod laws;

pub use front::front_over;
pub use front_end::FrontEnd;

#[cfg(test)]
mod tests;
