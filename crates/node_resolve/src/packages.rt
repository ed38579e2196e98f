//! Packages by their names: the module's own, and those installed in the folders above it.
ghost use Rattle.std.specs.Prelude.{◌≡◌, IfOk, IfSome, length, ◌==◌};
ghost use Rattle.std.specs.Option.{option_and_then, option_map};
ghost use Rattle.serde_json.specs.View.{view};
ghost use Rattle.node_resolve.specs.Causes.{HasResolveCause};
ghost use Rattle.node_resolve.specs.Targets as targets;

use crate::exports::export_pick;
use crate::manifest::{exports_in, has_name, manifest_at};
use crate::names::Bare;
use crate::pick::Pick;
use crate::search::{file_target_at, found_at, is_root};
use crate::shape::{is_directory_like, is_modules};
use crate::{ResolveFault, Target};
use jam_base::{Folder, ModulePath, OutOfMemory};
use serde_json::Value;
use std::alloc::Global;

// What the exports of the package in a folder give, as a target.
fn picked_target<F: Folder>(
    alloc: Global,
    folder: &mut F,
    at: &ModulePath,
    pick: Pick,
) -> Result<Target, ResolveFault>
    ensures target { IfOk result (λ target. IfSome (F.files folder.old) (λ m. target ≡ targets.picked_target m at.now pick)) }
    ensures same { F.files folder.new ≡ F.files folder.old }
    ensures cause { HasResolveCause (F.faults folder.old) (F.faults folder.new) result }
{
    let Pick::Path(text) = pick else {
        return Ok(Target::Missing);
    };
    let path = at.join(alloc, text.as_str())?;
    file_target_at(folder, path)
}

// The target of a bare text in the package of a folder with this package.json. None where it has no
// exports.
#[tactic(auto, unfolding(crate::specs::Targets::exported_target))]
fn exported_target<F: Folder>(
    alloc: Global,
    folder: &mut F,
    bare: &Bare<'_>,
    at: &ModulePath,
    manifest: &Value,
) -> Result<Option<Target>, ResolveFault>
    ensures target { IfOk result (λ found. IfSome (F.files folder.old) (λ m. found ≡ targets.exported_target m bare.now at.now (view manifest.now))) }
    ensures same { F.files folder.new ≡ F.files folder.old }
    ensures cause { HasResolveCause (F.faults folder.old) (F.faults folder.new) result }
{
    let Some(exports) = exports_in(manifest) else {
        return Ok(None);
    };
    let pick = export_pick(alloc, exports, bare.subpath())?;
    let target = picked_target(alloc, folder, at, pick)?;
    Ok(Some(target))
}

// The folder above a folder. The application folder has none.
fn folder_above(alloc: Global, at: &ModulePath) -> Result<Option<ModulePath>, OutOfMemory>
    ensures { IfOk result (λ found. found ≡ targets.folder_above at.now) }
{
    if is_root(at) {
        return Ok(None);
    }
    Ok(Some(at.parent(alloc)?))
}

// The folder of the package that a folder belongs to, and its package.json.
fn scope_of<F: Folder>(
    alloc: Global,
    folder: &mut F,
    from: &ModulePath,
) -> Result<Option<(ModulePath, Value)>, ResolveFault>
    ensures scope { IfOk result (λ found. IfSome (F.files folder.old) (λ m.
        option_map (λ s. (s.0, view s.1)) found ≡ targets.scope_of m (targets.upward from.now))) }
    ensures same { F.files folder.new ≡ F.files folder.old }
    ensures cause { HasResolveCause (F.faults folder.old) (F.faults folder.new) result }
{
    let mut at = from.copy(alloc)?;
    'folders: loop {
        if is_modules(at.as_str()) {
            return Ok(None);
        }
        if let Some(manifest) = manifest_at(alloc, folder, &at)? {
            return Ok(Some((at, manifest)));
        }
        match folder_above(alloc, &at)? {
            None => return Ok(None),
            Some(above) => at = above,
        }
    }
}

// The target of a text that begins with the name of the package that the folder belongs to.
#[tactic(auto, unfolding(crate::specs::Targets::self_target))]
fn self_target<F: Folder>(
    alloc: Global,
    folder: &mut F,
    bare: &Bare<'_>,
    from: &ModulePath,
) -> Result<Option<Target>, ResolveFault>
    ensures target { IfOk result (λ found. IfSome (F.files folder.old) (λ m. found ≡ targets.self_target m bare.now from.now)) }
    ensures same { F.files folder.new ≡ F.files folder.old }
    ensures cause { HasResolveCause (F.faults folder.old) (F.faults folder.new) result }
{
    if !bare.is_valid() {
        return Ok(None);
    }
    let Some((at, manifest)) = scope_of(alloc, folder, from)? else {
        return Ok(None);
    };
    if !has_name(&manifest, bare.name()) {
        return Ok(None);
    }
    exported_target(alloc, folder, bare, &at, &manifest)
}

// The target by the exports of the package in a folder.
fn package_target<F: Folder>(
    alloc: Global,
    folder: &mut F,
    bare: &Bare<'_>,
    at: &ModulePath,
) -> Result<Option<Target>, ResolveFault>
    ensures target { IfOk result (λ found. IfSome (F.files folder.old) (λ m. found ≡ targets.package_target m bare.now at.now)) }
    ensures same { F.files folder.new ≡ F.files folder.old }
    ensures cause { HasResolveCause (F.faults folder.old) (F.faults folder.new) result }
{
    let Some(manifest) = manifest_at(alloc, folder, at)? else {
        return Ok(None);
    };
    exported_target(alloc, folder, bare, at, &manifest)
}

// The target by the exports of the package of that name in a folder of packages.
#[tactic(auto, unfolding(crate::specs::Targets::by_exports))]
fn by_exports<F: Folder>(
    alloc: Global,
    folder: &mut F,
    bare: &Bare<'_>,
    modules: &ModulePath,
) -> Result<Option<Target>, ResolveFault>
    ensures target { IfOk result (λ found. IfSome (F.files folder.old) (λ m. found ≡ targets.by_exports m bare.now modules.now)) }
    ensures same { F.files folder.new ≡ F.files folder.old }
    ensures cause { HasResolveCause (F.faults folder.old) (F.faults folder.new) result }
{
    if !bare.is_valid() {
        return Ok(None);
    }
    match modules.join(alloc, bare.name())? {
        None => Ok(None),
        Some(at) => package_target(alloc, folder, bare, &at),
    }
}

// The target by the path from a folder of packages.
fn by_path<F: Folder>(
    alloc: Global,
    folder: &mut F,
    bare: &Bare<'_>,
    modules: &ModulePath,
) -> Result<Option<Target>, ResolveFault>
    ensures target { IfOk result (λ found. IfSome (F.files folder.old) (λ m. found ≡ targets.by_path m bare.now modules.now)) }
    ensures same { F.files folder.new ≡ F.files folder.old }
    ensures cause { HasResolveCause (F.faults folder.old) (F.faults folder.new) result }
{
    match modules.join(alloc, bare.text())? {
        None => Ok(None),
        Some(at) => found_at(alloc, folder, is_directory_like(bare.text()), &at),
    }
}

// The target below a folder of packages: by the exports of the package, else by the path.
#[tactic(auto, unfolding(crate::specs::Targets::below_modules))]
fn below_modules<F: Folder>(
    alloc: Global,
    folder: &mut F,
    bare: &Bare<'_>,
    modules: &ModulePath,
) -> Result<Option<Target>, ResolveFault>
    ensures target { IfOk result (λ found. IfSome (F.files folder.old) (λ m. found ≡ targets.below_modules m bare.now modules.now)) }
    ensures same { F.files folder.new ≡ F.files folder.old }
    ensures cause { HasResolveCause (F.faults folder.old) (F.faults folder.new) result }
{
    if let Some(target) = by_exports(alloc, folder, bare, modules)? {
        return Ok(Some(target));
    }
    by_path(alloc, folder, bare, modules)
}

// The target among the packages that are installed in a folder.
#[tactic(auto, unfolding(crate::specs::Targets::installed_in))]
fn installed_in<F: Folder>(
    alloc: Global,
    folder: &mut F,
    bare: &Bare<'_>,
    at: &ModulePath,
) -> Result<Option<Target>, ResolveFault>
    ensures target { IfOk result (λ found. IfSome (F.files folder.old) (λ m. found ≡ targets.installed_in m bare.now at.now)) }
    ensures same { F.files folder.new ≡ F.files folder.old }
    ensures cause { HasResolveCause (F.faults folder.old) (F.faults folder.new) result }
{
    if is_modules(at.as_str()) {
        return Ok(None);
    }
    match at.join(alloc, "node_modules")? {
        None => Ok(None),
        Some(modules) => below_modules(alloc, folder, bare, &modules),
    }
}

// The first target among the packages that are installed in a folder or one above it.
fn installed_target<F: Folder>(
    alloc: Global,
    folder: &mut F,
    bare: &Bare<'_>,
    from: &ModulePath,
) -> Result<Option<Target>, ResolveFault>
    ensures target { IfOk result (λ found. IfSome (F.files folder.old) (λ m.
        found ≡ targets.installed_target m bare.now (targets.upward from.now))) }
    ensures same { F.files folder.new ≡ F.files folder.old }
    ensures cause { HasResolveCause (F.faults folder.old) (F.faults folder.new) result }
{
    let mut at = from.copy(alloc)?;
    'folders: loop {
        if let Some(target) = installed_in(alloc, folder, bare, &at)? {
            return Ok(Some(target));
        }
        match folder_above(alloc, &at)? {
            None => return Ok(None),
            Some(above) => at = above,
        }
    }
}

// The target, and `Missing` where none was found.
pub(crate) fn or_missing(found: Option<Target>) -> Target
    ensures { result ≡ targets.or_missing found }
{
    match found {
        None => Target::Missing,
        Some(target) => target,
    }
}

/// The target of a bare text in a module of a folder.
#[tactic(auto, unfolding(crate::specs::Targets::bare_target))]
pub(crate) fn bare_target<F: Folder>(
    alloc: Global,
    folder: &mut F,
    bare: &Bare<'_>,
    from: &ModulePath,
) -> Result<Target, ResolveFault>
    ensures target { IfOk result (λ target. IfSome (F.files folder.old) (λ m. target ≡ targets.bare_target m bare.now from.now)) }
    ensures same { F.files folder.new ≡ F.files folder.old }
    ensures cause { HasResolveCause (F.faults folder.old) (F.faults folder.new) result }
{
    if let Some(target) = self_target(alloc, folder, bare, from)? {
        return Ok(target);
    }
    let found = installed_target(alloc, folder, bare, from)?;
    Ok(or_missing(found))
}
