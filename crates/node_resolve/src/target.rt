//! What the text of a require leads to.
ghost use Rattle.std.specs.Prelude.{◌≡◌, ◌++◌, [], codes, string_bytes, IfOk, IfSome};
ghost use Rattle.std.specs.Option.{option_map, unwrap_or};
ghost use Rattle.node_resolve.specs.Causes.{HasResolveCause};
ghost use Rattle.node_resolve.specs.Targets as targets;
ghost use Rattle.node_resolve.specs.Targets.{target_of, entry_target};

use crate::ResolveFault;
use crate::names::Bare;
use crate::packages::{bare_target, or_missing};
use crate::search::found_at;
use crate::shape::{is_core, is_directory_like, is_relative, is_unsearched};
use jam_base::{Folder, ModulePath, OutOfMemory};
use std::alloc::Global;

/// What the text of a require leads to.
#[derive(Debug, PartialEq, Eq, Drop)]
pub enum Target {
    /// The file at this path, which can be code.
    Module(ModulePath),
    /// The file at this path, which ends `.json` or `.node`.
    NotCode(ModulePath),
    /// A module that Node itself has.
    Core,
    /// Nothing that is there.
    Missing,
}

// The target of a relative text whose path is this; none is above the application folder.
#[tactic(auto, unfolding(crate::specs::Targets::relative_target))]
fn relative_target<F: Folder>(
    alloc: Global,
    folder: &mut F,
    path: Option<ModulePath>,
    spec: &str,
) -> Result<Target, ResolveFault>
    ensures target { IfOk result (λ target. IfSome (F.files folder.old) (λ m. target ≡ targets.relative_target m spec.now path)) }
    ensures same { F.files folder.new ≡ F.files folder.old }
    ensures cause { HasResolveCause (F.faults folder.old) (F.faults folder.new) result }
{
    let Some(path) = path else {
        return Ok(Target::Missing);
    };
    let found = found_at(alloc, folder, is_directory_like(spec), &path)?;
    Ok(or_missing(found))
}

/// The target of the text `spec` of a require in the module at the path `from`.
///
/// A core module's name and a text that begins `node:` are `Core`. A text that is `.` or `..` or begins
/// `./` or `../` is a path from the folder of that module. Any other begins with the name of a package:
/// the `exports` of the package that the module itself belongs to decide where it has that name, else
/// the folders `node_modules` are searched from the module's folder up to the application folder. A
/// path leads to a file, with an extension or without, or to a folder's `main` or index. Above the
/// application folder nothing is found.
///
/// `ReadFault` comes where a call of the folder failed, `OutOfMemory` where there was no memory.
#[tactic(auto, unfolding(crate::specs::Targets::target_of))]
pub fn resolve<F: Folder>(
    alloc: Global,
    folder: &mut F,
    from: &ModulePath,
    spec: &str,
) -> Result<Target, ResolveFault>
    ensures target { IfOk result (λ target. IfSome (F.files folder.old) (λ m. target ≡ target_of m from.now spec.now)) }
    ensures same { F.files folder.new ≡ F.files folder.old }
    ensures cause { HasResolveCause (F.faults folder.old) (F.faults folder.new) result }
{
    if is_core(spec) {
        return Ok(Target::Core);
    }
    if is_unsearched(spec) {
        return Ok(Target::Missing);
    }
    let from = from.parent(alloc)?;
    if is_relative(spec) {
        let path = from.join(alloc, spec)?;
        return relative_target(alloc, folder, path, spec);
    }
    let bare = Bare::of(alloc, spec)?;
    bare_target(alloc, folder, &bare, &from)
}

// The text of an entry: `./` and what was given, if anything was.
fn entry_text(alloc: Global, entry: Option<&str>) -> Result<String, OutOfMemory>
    ensures { IfOk result (λ text. string_bytes text ≡ codes "./" ++ unwrap_or (option_map (λ t. t.now) entry.entry) []) }
{
    let mut text = String::from_str(alloc, "./")?;
    if let Some(given) = entry {
        text.push_str(given)?;
    }
    Ok(text)
}

/// The target of an entry: of `./` with the given text behind it, or of `./` alone, in a module that
/// stands in the application folder. Its faults are those of `resolve`.
pub fn entry_of<F: Folder>(
    alloc: Global,
    folder: &mut F,
    entry: Option<&str>,
) -> Result<Target, ResolveFault>
    ensures target { IfOk result (λ target. IfSome (F.files folder.old) (λ m.
        target ≡ entry_target m (option_map (λ t. t.now) entry.entry))) }
    ensures same { F.files folder.new ≡ F.files folder.old }
    ensures cause { HasResolveCause (F.faults folder.old) (F.faults folder.new) result }
{
    let spec = entry_text(alloc, entry)?;
    let path = ModulePath::read(alloc, spec.as_str())?;
    relative_target(alloc, folder, path, spec.as_str())
}
