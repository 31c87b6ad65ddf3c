//! The front: which command a request asks for, and which response an answer gets.
//!
//! Promised to the layer above:
//! - `command_of` answers exactly the command of the table's row for the request, or exactly the first of
//!   `NoRoute`, `BadMethod`, `BadQuery` and `BadBody`, but for want of memory. `Routes` is the table's
//!   patterns in a `matchit` router.
//! - `response_of` answers exactly the status and the body for each reply, rule and fault of a step,
//!   `fault_response` those for a request that is no command, and `wire_response` those for one that can't
//!   be read. A refusal names its rule and none of the rule's values, so it tells nobody a receipt (`laws`).
//!
//! Read `specs/Routes.antt` first; then `Commands` (what each row asks), `Paths` and `Queries` (where its
//! texts and numbers stand), and `Responses`.
#![tactic(auto)]

mod commands;
mod fault;
pub mod laws;
mod page;
mod paths;
mod queries;
mod responses;
mod routes;

pub use commands::{FrontAsk, command_of};
pub use fault::FrontFault;
pub use page::{Action, Page};
pub use responses::{fault_response, response_of, stop_response, wire_response};
pub use routes::Routes;

#[cfg(test)]
mod tests;
