//! Binding expressions of Azure Functions apps.
//!
//! A text may name app settings as `%name%` and values as `{name}`. The crate promises to the layer
//! above:
//! - `Template::read` and `Pattern::read` replace settings once and then read plain text and names
//!   from the left; they answer exactly the first fault, and a missing setting before any other.
//!   What is read gives the text again when it is written out. `Settings::replace` and
//!   `Pattern::read_replaced` are the two steps apart.
//! - `Template::resolve` gives exactly the plain texts and the values of the names, one behind the
//!   other, or the first name without a text.
//! - `Pattern::matches` gives, of all ways to read a name by a pattern, the one whose first name has
//!   the longest text, then whose second has, and so on, and `None` exactly where there is no way.
//!
//! Definitions, in the order to read them: `specs/Settings.antt`, `Layout`, `Form`, `Written`, `Json`,
//! `Values` and `Matching`. `Steps`, `Names` and `Tails` are for private
//! functions alone.
#![tactic(auto)]

mod fault;
mod form;
mod matching;
mod pairs;
mod pattern;
mod settings;
mod taken;
mod template;
mod values;

pub use fault::ExprFault;
pub use pairs::Pairs;
pub use pattern::Pattern;
pub use settings::Settings;
pub use template::Template;
pub use values::{Values, member_of};

#[cfg(test)]
mod tests;
