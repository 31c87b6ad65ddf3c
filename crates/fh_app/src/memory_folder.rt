// A folder in memory.
ghost use Rattle.std.specs.Prelude.{◌≡◌, [], IfOk, OnOk, Some, option_map};
ghost use Rattle.fh_exprs.specs.Pairs.{text_at};
ghost use Rattle.fh_app.specs.Bindings.{cut_at};
ghost use Rattle.fh_app.specs.Folders.{folders_of, with_folder};

use crate::folder::{Folder, FolderFault, insert};
use crate::targets::cut_at_slash;
use fh_base::{Bytes, FaultPlan, NoMemory, Text};
use std::alloc::Global;

/// A folder in memory. It tells its files, and fails at the calls of its plan. Of two files with one path
/// the first counts.
#[derive(Drop)]
pub struct MemoryFolder {
    pub files: Vec<(Text, Bytes)>,
    pub plan: FaultPlan,
}

impl Folder for MemoryFolder {
    ghost files = { λ f. Some f.files.items };

    ghost folder_faults = { λ f. f.plan.faults };

    fn names(&mut self, alloc: Global) -> Result<Vec<Text>, FolderFault> {
        if self.plan.fails_now() {
            return Err(FolderFault::Failed);
        }
        let names = folders_of(alloc, &self.files)?;
        Ok(names)
    }

    fn read(&mut self, alloc: Global, path: &str) -> Result<Option<Bytes>, FolderFault> {
        if self.plan.fails_now() {
            return Err(FolderFault::Failed);
        }
        let bytes = bytes_at(alloc, &self.files, path)?;
        Ok(bytes)
    }
}

#[tactic(auto, unfolding(crate::specs::Folders::folders_of))]
fn folders_of(alloc: Global, files: &[(Text, Bytes)]) -> Result<Vec<Text>, NoMemory>
    ensures { IfOk result (λ names. names.items ≡ folders_of files.now) }
{
    let mut names = Vec::new(alloc);
    for file in files {
        insert_folder(alloc, &mut names, file.0.as_str())?;
    }
    Ok(names)
}

// Puts the first part of a path that has a slash into its place.
fn insert_folder(alloc: Global, names: &mut Vec<Text>, path: &str) -> Result<(), NoMemory>
    ensures { OnOk result (names.new.items ≡ with_folder names.old.items (cut_at 47 path.now)) }
{
    match cut_at_slash(path) {
        Some((name, _rest)) => insert(alloc, names, name),
        None => Ok(()),
    }
}

fn bytes_at(alloc: Global, files: &[(Text, Bytes)], path: &str) -> Result<Option<Bytes>, NoMemory>
    ensures { IfOk result (λ bytes. bytes ≡ text_at path.now files.now) }
{
    for file in files {
        if file.0.as_str() == path {
            let bytes = Bytes::from_slice(alloc, file.1.as_slice())?;
            return Ok(Some(bytes));
        }
    }
    Ok(None)
}
