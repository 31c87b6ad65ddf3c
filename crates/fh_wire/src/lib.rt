//! HTTP messages: what bytes are, as a request or a response, or the first fault in them.
//!
//! Promised to the layer above:
//! - `read_request` reads a request from a source, and `read_response` all the bytes of a connection as a
//!   response. Bytes have one answer, and it is the message or the first fault that `specs/Messages.antt`
//!   defines, but for want of memory and, of a source, for a read that failed. A head is read by
//!   `httparse`, within the first 2,097,152 bytes and with at most 64 fields.
//! - `request_bytes` and `write_response` write exactly the bytes of `specs/Written.antt`, and these are
//!   read as the message that was written.
//! - A call fails for its source or its sink only where the count of that one's faults rose.
//!
//! Read `specs/Messages.antt` first; then `Fronts` and `Scan` (when a head is whole, refused or open),
//! `Fields` and `Sizes` (what its fields say of the body), `Reading` and `Causes`.
#![tactic(auto)]

mod fault;
mod fields;
mod front;
mod head;
pub mod laws;
mod request;
mod response;
mod scan;
mod size;
mod written;

pub use fault::WireFault;
pub use request::{HttpIn, read_request};
pub use response::{HttpBack, read_response};
pub use written::{request_bytes, write_response};

#[cfg(test)]
mod tests;
