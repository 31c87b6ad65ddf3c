//! Numbers by place, of which the first that is at most a bound is found without a look at each.
//!
//! Promised to the layer above: contracts see a plain list of numbers. `first` answers the first place from
//! a place on whose number is at most a bound, or none exactly where there is none. `push` adds a number
//! behind the others, or is refused memory and adds none; `set` changes the number of a place and takes no
//! memory. Above the numbers stand four levels, each number of a level at most the 32 below it, so that
//! `first` and `set` look at a few hundred numbers at most among up to 33 million. `first` looks at 32
//! numbers only where the one above them is at most the bound, and `set` goes up a level only where the
//! number there changes. How fast they are is measured by those who use them, and not proved. Read
//! specs/Tower.antt first.
#![tactic(auto)]

mod level;
mod minima;
mod tower;

pub use level::NoMemory;
pub use minima::Minima;

#[cfg(test)]
mod tests;
