//! Looking for the file that a path leads to, as it stands and as a folder.
ghost use Rattle.std.specs.Prelude.{◌≡◌, ◌==◌, ◌++◌, codes, length, map as each, IfOk, IfSome};
ghost use Rattle.std.specs.Option.{option_and_then, option_map};
ghost use Rattle.serde_json.specs.View.{view};
ghost use Rattle.jam_base.specs.Path.{join_of, path_of};
ghost use Rattle.node_resolve.specs.Manifests.{main_in as main_in_data};
ghost use Rattle.node_resolve.specs.Causes.{HasResolveCause};
ghost use Rattle.node_resolve.specs.Finding as finding;

use crate::manifest::{main_in, manifest_at};
use crate::shape::is_no_code;
use crate::{ResolveFault, Target};
use jam_base::{Folder, ModulePath, OutOfMemory};
use serde_json::Value;
use std::alloc::Global;

// The path that a path with an end behind it is.
fn with_end(alloc: Global, path: &ModulePath, end: &str) -> Result<Option<ModulePath>, OutOfMemory>
    ensures { IfOk result (λ made. made ≡ path_of (codes "./" ++ path.now ++ end.now)) }
{
    let mut text = String::from_str(alloc, "./")?;
    text.push_str(path.as_str())?;
    text.push_str(end)?;
    ModulePath::read(alloc, text.as_str())
}

// The file at the path with an end behind it, where there is one.
fn file_at<F: Folder>(
    alloc: Global,
    folder: &mut F,
    path: &ModulePath,
    end: &str,
) -> Result<Option<ModulePath>, ResolveFault>
    ensures found { IfOk result (λ found. IfSome (F.files folder.old) (λ m.
        found ≡ finding.file_at m (path_of (codes "./" ++ path.now ++ end.now)))) }
    ensures same { F.files folder.new ≡ F.files folder.old }
    ensures cause { HasResolveCause (F.faults folder.old) (F.faults folder.new) result }
{
    let Some(path) = with_end(alloc, path, end)? else {
        return Ok(None);
    };
    if folder.is_file(&path)? {
        Ok(Some(path))
    } else {
        Ok(None)
    }
}

// The first file among the path with each of the ends behind it.
fn first_file<F: Folder>(
    alloc: Global,
    folder: &mut F,
    path: &ModulePath,
    ends: &[&str],
) -> Result<Option<ModulePath>, ResolveFault>
    ensures found { IfOk result (λ found. IfSome (F.files folder.old) (λ m.
        found ≡ finding.first_file m path.now (each (λ e. e.now) ends.now))) }
    ensures same { F.files folder.new ≡ F.files folder.old }
    ensures cause { HasResolveCause (F.faults folder.old) (F.faults folder.new) result }
{
    for end in ends {
        let found = file_at(alloc, folder, path, end)?;
        if found.is_some() {
            return Ok(found);
        }
    }
    Ok(None)
}

// The file that the path is, as it stands or with an extension behind it.
#[tactic(auto, unfolding(crate::specs::Finding::with_extension))]
fn with_extension<F: Folder>(
    alloc: Global,
    folder: &mut F,
    path: &ModulePath,
) -> Result<Option<ModulePath>, ResolveFault>
    ensures found { IfOk result (λ found. IfSome (F.files folder.old) (λ m. found ≡ finding.with_extension m path.now)) }
    ensures same { F.files folder.new ≡ F.files folder.old }
    ensures cause { HasResolveCause (F.faults folder.old) (F.faults folder.new) result }
{
    first_file(alloc, folder, path, &["", ".js", ".json", ".node"])
}

/// Whether the path is the application folder itself.
pub(crate) fn is_root(path: &ModulePath) -> bool
    ensures { result ≡ (length path.now == 0) }
{
    path.as_str().is_empty()
}

// The same, where the application folder itself is no file.
#[tactic(auto, unfolding(crate::specs::Finding::file_of))]
fn file_of<F: Folder>(
    alloc: Global,
    folder: &mut F,
    path: &ModulePath,
) -> Result<Option<ModulePath>, ResolveFault>
    ensures found { IfOk result (λ found. IfSome (F.files folder.old) (λ m. found ≡ finding.file_of m path.now)) }
    ensures same { F.files folder.new ≡ F.files folder.old }
    ensures cause { HasResolveCause (F.faults folder.old) (F.faults folder.new) result }
{
    if is_root(path) {
        return Ok(None);
    }
    with_extension(alloc, folder, path)
}

// The index of the folder that the path is.
#[tactic(auto, unfolding(crate::specs::Finding::index_of))]
fn index_of<F: Folder>(
    alloc: Global,
    folder: &mut F,
    path: &ModulePath,
) -> Result<Option<ModulePath>, ResolveFault>
    ensures found { IfOk result (λ found. IfSome (F.files folder.old) (λ m. found ≡ finding.index_of m path.now)) }
    ensures same { F.files folder.new ≡ F.files folder.old }
    ensures cause { HasResolveCause (F.faults folder.old) (F.faults folder.new) result }
{
    first_file(
        alloc,
        folder,
        path,
        &["/index.js", "/index.json", "/index.node"],
    )
}

// A file as a target: one that ends `.json` or `.node` is no code.
fn file_target(path: ModulePath) -> Target
    ensures { result ≡ finding.file_target path }
{
    if is_no_code(path.as_str()) {
        Target::NotCode(path)
    } else {
        Target::Module(path)
    }
}

// A file as a target, where one was found.
fn target_if(found: Option<ModulePath>) -> Option<Target>
    ensures { result ≡ option_map finding.file_target found }
{
    match found {
        None => None,
        Some(path) => Some(file_target(path)),
    }
}

// A file as a target, and `Missing` where none was found.
fn target_at(found: Option<ModulePath>) -> Target
    ensures { result ≡ finding.target_at found }
{
    match found {
        None => Target::Missing,
        Some(path) => file_target(path),
    }
}

/// The target at a path: the file there, else `Missing`. No path is above the application folder.
pub(crate) fn file_target_at<F: Folder>(
    folder: &mut F,
    path: Option<ModulePath>,
) -> Result<Target, ResolveFault>
    ensures found { IfOk result (λ target. IfSome (F.files folder.old) (λ m. target ≡ finding.target_at (finding.file_at m path))) }
    ensures same { F.files folder.new ≡ F.files folder.old }
    ensures cause { HasResolveCause (F.faults folder.old) (F.faults folder.new) result }
{
    let Some(path) = path else {
        return Ok(Target::Missing);
    };
    if folder.is_file(&path)? {
        Ok(file_target(path))
    } else {
        Ok(Target::Missing)
    }
}

// The main path that the package.json of a folder gives.
fn main_in_folder(
    alloc: Global,
    at: &ModulePath,
    manifest: Option<Value>,
) -> Result<Option<ModulePath>, OutOfMemory>
    ensures { IfOk result (λ found. found ≡ option_and_then (join_of at.now) (option_and_then main_in_data (option_map view manifest))) }
{
    let Some(manifest) = manifest else {
        return Ok(None);
    };
    match main_in(&manifest) {
        None => Ok(None),
        Some(main) => at.join(alloc, main),
    }
}

// The main path of the folder that the path is.
#[tactic(auto, unfolding(crate::specs::Finding::main_path))]
fn main_path<F: Folder>(
    alloc: Global,
    folder: &mut F,
    at: &ModulePath,
) -> Result<Option<ModulePath>, ResolveFault>
    ensures found { IfOk result (λ found. IfSome (F.files folder.old) (λ m. found ≡ finding.main_path m at.now)) }
    ensures same { F.files folder.new ≡ F.files folder.old }
    ensures cause { HasResolveCause (F.faults folder.old) (F.faults folder.new) result }
{
    let manifest = manifest_at(alloc, folder, at)?;
    Ok(main_in_folder(alloc, at, manifest)?)
}

// What a main path of a folder leads to.
#[tactic(auto, unfolding(crate::specs::Finding::main_target))]
fn main_target<F: Folder>(
    alloc: Global,
    folder: &mut F,
    at: &ModulePath,
    main: &ModulePath,
) -> Result<Target, ResolveFault>
    ensures found { IfOk result (λ target. IfSome (F.files folder.old) (λ m. target ≡ finding.main_target m at.now main.now)) }
    ensures same { F.files folder.new ≡ F.files folder.old }
    ensures cause { HasResolveCause (F.faults folder.old) (F.faults folder.new) result }
{
    if let Some(path) = file_of(alloc, folder, main)? {
        return Ok(file_target(path));
    }
    if let Some(path) = index_of(alloc, folder, main)? {
        return Ok(file_target(path));
    }
    let found = index_of(alloc, folder, at)?;
    Ok(target_at(found))
}

// What the folder that the path is leads to. None where the search goes on.
#[tactic(auto, unfolding(crate::specs::Finding::directory_of))]
fn directory_of<F: Folder>(
    alloc: Global,
    folder: &mut F,
    at: &ModulePath,
) -> Result<Option<Target>, ResolveFault>
    ensures found { IfOk result (λ found. IfSome (F.files folder.old) (λ m. found ≡ finding.directory_of m at.now)) }
    ensures same { F.files folder.new ≡ F.files folder.old }
    ensures cause { HasResolveCause (F.faults folder.old) (F.faults folder.new) result }
{
    let Some(main) = main_path(alloc, folder, at)? else {
        let found = index_of(alloc, folder, at)?;
        return Ok(target_if(found));
    };
    let target = main_target(alloc, folder, at, &main)?;
    Ok(Some(target))
}

/// What the path leads to: unless it is directory-like the file that it is, else what it leads to as a
/// folder. None where the search goes on.
#[tactic(auto, unfolding(crate::specs::Finding::found_at))]
pub(crate) fn found_at<F: Folder>(
    alloc: Global,
    folder: &mut F,
    directory_like: bool,
    at: &ModulePath,
) -> Result<Option<Target>, ResolveFault>
    ensures found { IfOk result (λ found. IfSome (F.files folder.old) (λ m. found ≡ finding.found_at m directory_like at.now)) }
    ensures same { F.files folder.new ≡ F.files folder.old }
    ensures cause { HasResolveCause (F.faults folder.old) (F.faults folder.new) result }
{
    if !directory_like {
        if let Some(path) = file_of(alloc, folder, at)? {
            return Ok(Some(file_target(path)));
        }
    }
    directory_of(alloc, folder, at)
}
