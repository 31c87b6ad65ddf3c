//! Leases: who holds what, and until when.
//!
//! Promised to the layer above: contracts see the leases in order of their names. `plan` answers what an ask
//! comes to, or the rule that refuses it; an ask is never quiet. A change sets leases anew or removes one.
//! `stage` takes all its memory, and then `settle` makes exactly it and `unstage` makes nothing, both without
//! memory. `holder_at` reads who holds a lease. `laws` says what holds of each ask: who is granted a lease,
//! from whom it is taken, and that nobody else's holding changes before its end.
//! Read `specs/Part.antt`, `Rules.antt` and `Outcome.antt` first.
#![tactic(auto)]

mod act;
mod ask;
mod change;
mod done;
mod laws;
mod lease;
mod leases;
mod planning;
mod rules;
mod staging;

pub use ask::{HeldLease, LeaseAsk};
pub use change::{LeaseChange, StagedLeases};
pub use done::{LeaseDone, Moments};
pub use laws::{holders_are_as_told, holders_are_told, leases_have_one_holder, other_leases_stay};
pub use lease::Lease;
pub use leases::Leases;

#[cfg(test)]
mod tests;
