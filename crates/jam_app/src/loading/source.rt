//! The files of modules.
ghost use Rattle.std.specs.FinMap as finite;
ghost use Rattle.std.specs.Option.{option_map};
ghost use Rattle.std.specs.Prelude.{◌≡◌, ◌≤◌, ◌+◌, ◌++◌, ◌∷◌, [], ℕ, Bool, List, length, map, IfOk, OnOk, Some};
ghost use Rattle.jam_app.specs.Entries as entries;
ghost use Rattle.jam_app.specs.Entries.{begun};
ghost use Rattle.jam_app.specs.Reading.{HasExcess, IsExcess, file_at, file_of, size_of};
ghost use Rattle.jam_app.specs.Refusals.{IsLoadRefusal};
ghost use Rattle.jam_app.specs.Rounds.{byte_limit, bytes_at, module_limit, text_at};
ghost use Rattle.jam_app.specs.Stops.{CountsFaults, Gives};

use crate::Stop;
use crate::answers::message::{no_entry, too_many};
use crate::loading::size::{BYTE_LIMIT, MODULE_LIMIT, Size};
use jam_base::{Folder, ModulePath, ReadFailed, Text, decode_source};
use node_resolve::{ResolveFault, Target, entry_of};
use std::alloc::Global;

/// A module's file: its path and its text.
#[derive(Debug, Drop)]
pub(crate) struct Source {
    pub(crate) path: ModulePath,
    pub(crate) text: Text,
}

/// The path of a target that is a module.
pub(crate) fn module_path(target: Target) -> Option<ModulePath>
    ensures { result ≡ entries.module_path target }
{
    match target {
        Target::Module(path) => Some(path),
        Target::NotCode(_) | Target::Core | Target::Missing => None,
    }
}

/// The path of an entry: the target of `./` and its text, if it has one, where that is a module.
pub(crate) fn entry_path<F: Folder>(
    alloc: Global,
    folder: &mut F,
    entry: Option<&str>,
) -> Result<ModulePath, Stop>
    ensures gives { Gives (λ m path. entries.entry_path (option_map (λ t. t.now) entry.entry) m ≡ Some path)
        (λ m owed. (skip : Bool) → IsLoadRefusal (begun (option_map (λ t. t.now) entry.entry) skip) m owed) (F.files folder.old) (F.faults folder.old) (F.faults folder.new) result }
    ensures same { F.files folder.new ≡ F.files folder.old }
    ensures counts { CountsFaults (F.faults folder.old) (F.faults folder.new) result }
{
    match entry_of(alloc, folder, entry) {
        Ok(target) => match module_path(target) {
            Some(path) => Ok(path),
            None => Err(no_entry()),
        },
        Err(ResolveFault::ReadFault) => Err(Stop::ReadFault),
        Err(ResolveFault::OutOfMemory) => Err(Stop::OutOfMemory),
    }
}

/// The bytes of the file at a path, if there is one.
pub(crate) fn file_at<F: Folder>(
    alloc: Global,
    folder: &mut F,
    path: &ModulePath,
) -> Result<Option<Vec<u8>>, Stop>
    ensures gives { Gives (λ m found. option_map (λ v. v.items) found ≡ finite.get m path.now)
        (λ m owed. ⊥) (F.files folder.old) (F.faults folder.old) (F.faults folder.new) result }
    ensures same { F.files folder.new ≡ F.files folder.old }
    ensures counts { CountsFaults (F.faults folder.old) (F.faults folder.new) result }
{
    match folder.read(alloc, path) {
        Ok(found) => Ok(found),
        Err(ReadFailed::Failed) => Err(Stop::ReadFault),
        Err(ReadFailed::OutOfMemory) => Err(Stop::OutOfMemory),
    }
}

// The bytes of the file at a path, none where there is no file.
fn bytes_of<F: Folder>(alloc: Global, folder: &mut F, path: &ModulePath) -> Result<Vec<u8>, Stop>
    ensures gives { Gives (λ m bytes. bytes.items ≡ bytes_at m path.now)
        (λ m owed. ⊥) (F.files folder.old) (F.faults folder.old) (F.faults folder.new) result }
    ensures same { F.files folder.new ≡ F.files folder.old }
    ensures counts { CountsFaults (F.faults folder.old) (F.faults folder.new) result }
{
    match folder.read(alloc, path) {
        Ok(Some(bytes)) => Ok(bytes),
        Ok(None) => Ok(Vec::new(alloc)),
        Err(ReadFailed::Failed) => Err(Stop::ReadFault),
        Err(ReadFailed::OutOfMemory) => Err(Stop::OutOfMemory),
    }
}

// The text of the file at a path.
fn text_of<F: Folder>(alloc: Global, folder: &mut F, path: &ModulePath) -> Result<Text, Stop>
    ensures gives { Gives (λ m text. text ≡ text_at m path.now)
        (λ m owed. ⊥) (F.files folder.old) (F.faults folder.old) (F.faults folder.new) result }
    ensures same { F.files folder.new ≡ F.files folder.old }
    ensures counts { CountsFaults (F.faults folder.old) (F.faults folder.new) result }
{
    let bytes = bytes_of(alloc, folder, path)?;
    let text = decode_source(alloc, bytes.as_slice())?;
    Ok(text)
}

// Reads the file at a path, unless there is no room for one more module.
fn read_next<F: Folder>(
    alloc: Global,
    folder: &mut F,
    size: &mut Size,
    path: ModulePath,
) -> Result<Source, Stop>
    requires modules { size.old.modules ≤ module_limit }
    requires bytes { size.old.bytes ≤ byte_limit }
    ensures gives { Gives
        (λ m source. (file_of source ≡ file_at m path) × ((earlier : List (List ℕ)) → size.old ≡ size_of m earlier → size.new ≡ size_of m (earlier ++ path ∷ [])))
        (λ m owed. (earlier : List (List ℕ)) → size.old ≡ size_of m earlier → IsExcess m earlier path owed)
        (F.files folder.old) (F.faults folder.old) (F.faults folder.new) result }
    ensures path { IfOk result (λ source. source.path ≡ path) }
    ensures counted { OnOk result (size.new.modules ≡ size.old.modules + 1) }
    ensures modules { OnOk result (size.new.modules ≤ module_limit) }
    ensures bytes { OnOk result (size.new.bytes ≤ byte_limit) }
    ensures same { F.files folder.new ≡ F.files folder.old }
    ensures counts { CountsFaults (F.faults folder.old) (F.faults folder.new) result }
{
    let modules = size.modules + 1;
    if modules > MODULE_LIMIT {
        return Err(too_many(alloc, modules, size.bytes));
    }
    let text = text_of(alloc, folder, &path)?;
    let total = size.bytes + text.as_str().len() as u64;
    if total > BYTE_LIMIT {
        return Err(too_many(alloc, modules, total));
    }
    *size = Size {
        modules,
        bytes: total,
    };
    Ok(Source { path, text })
}

/// Reads the files of a round, and adds to the size of what is loaded.
pub(crate) fn read_round<F: Folder>(
    alloc: Global,
    folder: &mut F,
    size: &mut Size,
    round: Vec<ModulePath>,
) -> Result<Vec<Source>, Stop>
    requires modules { size.old.modules ≤ module_limit }
    requires bytes { size.old.bytes ≤ byte_limit }
    ensures gives { Gives
        (λ m sources. (map file_of sources.items ≡ map (file_at m) round.items) × ((earlier : List (List ℕ)) → size.old ≡ size_of m earlier → size.new ≡ size_of m (earlier ++ round.items)))
        (λ m owed. (earlier : List (List ℕ)) → size.old ≡ size_of m earlier → HasExcess m earlier round.items owed)
        (F.files folder.old) (F.faults folder.old) (F.faults folder.new) result }
    ensures paths { IfOk result (λ sources. map (λ s. s.path) sources.items ≡ round.items) }
    ensures counted { OnOk result (size.new.modules ≡ size.old.modules + length round.items) }
    ensures modules { OnOk result (size.new.modules ≤ module_limit) }
    ensures bytes { OnOk result (size.new.bytes ≤ byte_limit) }
    ensures same { F.files folder.new ≡ F.files folder.old }
    ensures counts { CountsFaults (F.faults folder.old) (F.faults folder.new) result }
{
    let mut sources = Vec::new(alloc);
    for path in round {
        let source = read_next(alloc, folder, size, path)?;
        sources.push(source)?;
    }
    Ok(sources)
}
