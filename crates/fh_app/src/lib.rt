//! The files of an Azure Functions app with a custom handler, and the command `check`.
//!
//! Promised to the layer above: `App::read` gives exactly the app that the files' bytes say, or exactly
//! the first fault in the order of the tables, with its file and member. `AppFiles::load` gives exactly
//! the bytes of host.json, local.settings.json and each function.json of a folder, the functions in order
//! of their names, and fails only where the folder counted a fault. `check` writes a line for each
//! function, or the line that its status tells.
//!
//! Only want of memory is answered freely. docs/app-files.md has the tables in words; read
//! specs/App.antt first, then `Host`, `Settings`, `Functions` and `Bindings`, whose lines stand in the
//! order of those tables.
#![tactic(auto)]

mod app;
mod bindings;
mod checking;
mod fault;
mod folder;
mod function;
mod host;
mod kinds;
mod memory_folder;
mod path_folder;
mod rows;
mod settings;
mod targets;

pub use app::{App, AppFiles, FunctionFiles};
pub use checking::{check, is_check};
pub use fault::AppFault;
pub use folder::{Folder, FolderFault};
pub use function::{Function, Functions, OutBinding, Outputs, Trigger};
pub use host::{Handler, QueueSettings};
pub use memory_folder::MemoryFolder;
pub use path_folder::PathFolder;

#[cfg(test)]
mod tests;
