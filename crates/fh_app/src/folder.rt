//! The folder that an app's files lie in.
ghost use Rattle.std.specs.Prelude.{◌≡◌, ◌≤◌, ◌++◌, ℕ, List, [], ◌∷◌, map, length, take, drop, Option, Some, IfOk, IfSome, OnOk, MatchOption, option_map};
ghost use Rattle.fh_exprs.specs.Pairs.{text_at};
ghost use Rattle.fh_app.specs.Folders.{HasFolderCause, AreFilesOf, inserted, folders_of, function_files_behind};
ghost use Rattle.fh_app.specs.Functions.{function_file as function_file_lem};

use crate::app::{self, AppFiles, FunctionFiles};
use fh_base::{Bytes, NoMemory, Text};
use std::alloc::{AllocFailed, Global};
use std::cmp::Ordering;

/// Why a call on a folder has no answer.
#[derive(Clone, Copy, Debug, PartialEq, Eq)]
pub enum FolderFault {
    /// The folder failed, and counted it.
    Failed,
    NoMemory,
}

impl From<NoMemory> for FolderFault {
    ghost use Rattle.std.specs.Prelude.{◌≡◌};
    ghost use Rattle.fh_app.specs.declared.folder.FolderFault.TheVariants.{NoMemory};

    ghost from_gives = { λ _ fault. fault ≡ NoMemory };

    fn from(_refused: NoMemory) -> FolderFault {
        FolderFault::NoMemory
    }
}

impl<T: Drop> From<AllocFailed<T>> for FolderFault {
    ghost use Rattle.std.specs.Prelude.{◌≡◌};
    ghost use Rattle.fh_app.specs.declared.folder.FolderFault.TheVariants.{NoMemory};

    ghost from_gives = { λ _ fault. fault ≡ NoMemory };

    fn from(_refused: AllocFailed<T>) -> FolderFault {
        FolderFault::NoMemory
    }
}

/// Files by their paths, in which `/` stands between a folder and what lies in it.
pub trait Folder {
    /// The paths with the bytes of their files, where the folder tells.
    ghost files: { Self → Option (List (List ℕ × List ℕ)) };

    /// How often a call has failed.
    ghost folder_faults: { Self → ℕ };

    /// The first part of each path that has a `/`, each once, in order of bytes.
    fn names(&mut self, alloc: Global) -> Result<Vec<Text>, FolderFault>
        ensures names { IfOk result (λ names. (told : List (List ℕ × List ℕ))
            → files self.old ≡ Some told → names.items ≡ folders_of told) }
        ensures same { files self.new ≡ files self.old }
        ensures cause { HasFolderCause (folder_faults self.old) (folder_faults self.new) result };

    /// The bytes of the file at the path, and `None` exactly where there is none.
    fn read(&mut self, alloc: Global, path: &str) -> Result<Option<Bytes>, FolderFault>
        ensures bytes { IfOk result (λ bytes. (told : List (List ℕ × List ℕ))
            → files self.old ≡ Some told → bytes ≡ text_at path.now told) }
        ensures same { files self.new ≡ files self.old }
        ensures cause { HasFolderCause (folder_faults self.old) (folder_faults self.new) result };
}

impl AppFiles {
    /// Reads host.json, local.settings.json and the function.json of each folder in order of their
    /// names.
    pub fn load<D: Folder>(alloc: Global, folder: &mut D) -> Result<AppFiles, FolderFault>
        ensures files { IfOk result (AreFilesOf (D.files folder.old)) }
        ensures same { D.files folder.new ≡ D.files folder.old }
        ensures cause { HasFolderCause (D.folder_faults folder.old) (D.folder_faults folder.new) result }
    {
        let host = folder.read(alloc, "host.json")?;
        let settings = folder.read(alloc, "local.settings.json")?;
        let names = folder.names(alloc)?;
        let functions = function_files(alloc, folder, &names)?;
        Ok(AppFiles {
            host,
            settings,
            functions,
        })
    }
}

// The files of the functions with these names, where there are any.
fn function_files<D: Folder>(
    alloc: Global,
    folder: &mut D,
    names: &[Text],
) -> Result<FunctionFiles, FolderFault>
    ensures files { IfOk result (λ found. (told : List (List ℕ × List ℕ))
        → D.files folder.old ≡ Some told → found ≡ function_files_behind told [] names.now) }
    ensures same { D.files folder.new ≡ D.files folder.old }
    ensures cause { HasFolderCause (D.folder_faults folder.old) (D.folder_faults folder.new) result }
{
    let mut files = Vec::new(alloc);
    for name in names {
        if let Some(file) = function_file(alloc, folder, name.as_str())? {
            files.push(file)?;
        }
    }
    Ok(FunctionFiles::new(files))
}

// The file of the function with this name, where there is one.
fn function_file<D: Folder>(
    alloc: Global,
    folder: &mut D,
    name: &str,
) -> Result<Option<(Text, Bytes)>, FolderFault>
    ensures file { IfOk result (λ file. (told : List (List ℕ × List ℕ)) → D.files folder.old ≡ Some told
        → file ≡ option_map (λ bytes. (name.now, bytes)) (text_at (function_file_lem name.now) told)) }
    ensures same { D.files folder.new ≡ D.files folder.old }
    ensures cause { HasFolderCause (D.folder_faults folder.old) (D.folder_faults folder.new) result }
{
    let path = app::function_file(alloc, name)?;
    let Some(bytes) = folder.read(alloc, path.as_str())? else {
        return Ok(None);
    };
    let name = Text::from_str(alloc, name)?;
    Ok(Some((name, bytes)))
}

/// Puts a name into its place among names in order of bytes, unless it is there.
pub(crate) fn insert(alloc: Global, names: &mut Vec<Text>, name: &str) -> Result<(), NoMemory>
    ensures { OnOk result (names.new.items ≡ inserted name.now names.old.items) }
{
    if let Some(place) = place_of(names, name) {
        let name = Text::from_str(alloc, name)?;
        names.insert(place, name)?;
    }
    Ok(())
}

// Where the name is missing.
fn place_of(names: &[Text], name: &str) -> Option<usize>
    ensures place { MatchOption result (inserted name.now names.now ≡ names.now)
        (λ place. inserted name.now names.now ≡ take place names.now ++ name.now ∷ drop place names.now) }
    ensures within { IfSome result (λ place. place ≤ length names.now) }
{
    for (place, other) in names.iter().enumerate() {
        match name.as_bytes().cmp(other.as_str().as_bytes()) {
            Ordering::Less => return Some(place),
            Ordering::Equal => return None,
            Ordering::Greater => {}
        }
    }
    Some(names.len())
}
