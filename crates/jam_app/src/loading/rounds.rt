//! The modules of an application, loaded round by round.
ghost use Rattle.std.specs.Option.{option_map};
ghost use Rattle.std.specs.Prelude.{◌≡◌, ◌↔◌, ◌≤◌, ◌+◌, ◌++◌, ◌⊎◌, ℕ, List, length, map, All, Contains, IfOk, OnOk, IsSome, Option, Some};
ghost use Rattle.std.specs.List.{flat_map};
ghost use Rattle.std.specs.BTreeMap as tree;
ghost use Rattle.std.specs.Cmp.Lexicographic.{slice_cmp};
ghost use Rattle.std.specs.Ordering.{nat_cmp};
ghost use Rattle.jam_app.specs.declared.loading.loaded.Loaded.{Loaded as AnyLoaded};
ghost use Rattle.jam_app.specs.Loading.{IsWhole};
ghost use Rattle.jam_app.specs.Loading.{IsAnalysed};
ghost use Rattle.jam_app.specs.BetweenRounds.{HoldsAnalysed, Stands, found_at};
ghost use Rattle.jam_app.specs.Reading.{led_from};
ghost use Rattle.jam_app.specs.Entries.{begun};
ghost use Rattle.jam_app.specs.Entries.{entry_path as path_asked};
ghost use Rattle.jam_app.specs.Refusals.{IsLoadRefusal};
ghost use Rattle.jam_app.specs.Rounds.{Ascend, byte_limit, module_limit};
ghost use Rattle.jam_app.specs.Stops.{CountsFaults, Gives};

use crate::Stop;
use crate::loading::loaded::{Application, Led, Loaded};
use crate::loading::module::modules_of;
use crate::loading::size::Size;
use crate::loading::source::{entry_path, read_round};
use jam_base::{Folder, ModulePath, OutOfMemory, Steps};
use std::alloc::Global;
use std::collections::BTreeMap;
use std::sync::ledger::Ledger;

/// How far loading has come: the loaded modules by their paths, and their size together.
#[derive(Drop)]
pub(crate) struct Progress {
    modules: BTreeMap<ModulePath, Loaded>,
    size: Size,
}

// Adds the paths to which requires lead.
fn push_targets(
    alloc: Global,
    paths: &mut Vec<ModulePath>,
    targets: &[Led],
) -> Result<(), OutOfMemory>
    ensures { OnOk result (paths.new.items ≡ paths.old.items ++ map (λ t. t.path) targets.now) }
{
    for target in targets {
        paths.push(target.path.copy(alloc)?)?;
    }
    Ok(())
}

// The paths of the modules that these require.
fn required_by(alloc: Global, modules: &[Loaded]) -> Result<Vec<ModulePath>, OutOfMemory>
    ensures { IfOk result (λ paths. paths.items ≡ flat_map led_from modules.now) }
{
    let mut paths = Vec::new(alloc);
    for module in modules {
        push_targets(alloc, &mut paths, module.targets.as_slice())?;
    }
    Ok(paths)
}

// Keeps a module under a path.
fn put(
    kept: &mut BTreeMap<ModulePath, Loaded>,
    path: ModulePath,
    loaded: Loaded,
) -> Result<(), OutOfMemory>
    ensures updates { OnOk result (tree.Updates (slice_cmp nat_cmp) kept.old kept.new path (Some loaded)) }
    ensures few { OnOk result (tree.btree_map_len kept.new ≤ tree.btree_map_len kept.old + 1) }
{
    kept.insert(path, loaded)?;
    Ok(())
}

// Keeps the modules under their paths.
fn keep(
    alloc: Global,
    kept: &mut BTreeMap<ModulePath, Loaded>,
    modules: Vec<Loaded>,
) -> Result<(), OutOfMemory>
    ensures here { OnOk result ((path : List ℕ) → IsSome (found_at kept.new path) ↔ (IsSome (found_at kept.old path) ⊎ Contains (map (λ l. l.path) modules.items) path)) }
    ensures which { OnOk result ((path : List ℕ) (l : AnyLoaded) → found_at kept.new path ≡ Some l → (found_at kept.old path ≡ Some l) ⊎ ((l.path ≡ path) × Contains modules.items l)) }
    ensures few { OnOk result (tree.btree_map_len kept.new ≤ tree.btree_map_len kept.old + length modules.items) }
{
    for module in modules {
        let path = module.path.copy(alloc)?;
        put(kept, path, module)?;
    }
    Ok(())
}

// The paths among these that aren't loaded, in order and each once.
fn not_loaded(
    alloc: Global,
    loaded: &BTreeMap<ModulePath, Loaded>,
    paths: Vec<ModulePath>,
) -> Result<Vec<ModulePath>, OutOfMemory>
    ensures sorted { IfOk result (λ next. Ascend next.items) }
    ensures here { IfOk result (λ next. (path : List ℕ) → Contains next.items path ↔ (Contains paths.items path × (IsSome (found_at loaded.now path) → ⊥))) }
{
    let mut next = Vec::new(alloc);
    for path in paths {
        if !loaded.contains_key(&path) {
            next.push(path)?;
        }
    }
    next.sort()?;
    next.dedup();
    Ok(next)
}

// Loads a round, and finds the paths of the next one.
fn load_round<F: Folder, L: Ledger>(
    alloc: Global,
    folder: &mut F,
    progress: &mut Progress,
    round: Vec<ModulePath>,
    skip: bool,
    steps: &mut Steps<L>,
) -> Result<Vec<ModulePath>, Stop>
    requires modules { progress.old.size.modules ≤ module_limit }
    requires bytes { progress.old.size.bytes ≤ byte_limit }
    requires few { tree.btree_map_len progress.old.modules ≤ progress.old.size.modules }
    requires held { HoldsAnalysed progress.old.modules }
    ensures held { OnOk result (HoldsAnalysed progress.new.modules) }
    ensures gives { Gives
        (λ m next. (entry : Option (List ℕ)) → Stands (begun entry skip) m progress.old round.items → Stands (begun entry skip) m progress.new next.items)
        (λ m owed. (entry : Option (List ℕ)) → Stands (begun entry skip) m progress.old round.items → IsLoadRefusal (begun entry skip) m owed)
        (F.files folder.old) (F.faults folder.old) (F.faults folder.new) result }
    ensures there { OnOk result ((path : List ℕ) → IsSome (found_at progress.old.modules path) ⊎ Contains round.items path → IsSome (found_at progress.new.modules path)) }
    ensures few { OnOk result (tree.btree_map_len progress.new.modules ≤ progress.new.size.modules) }
    ensures counted { OnOk result (progress.new.size.modules ≡ progress.old.size.modules + length round.items) }
    ensures modules { OnOk result (progress.new.size.modules ≤ module_limit) }
    ensures bytes { OnOk result (progress.new.size.bytes ≤ byte_limit) }
    ensures same { F.files folder.new ≡ F.files folder.old }
    ensures counts { CountsFaults (F.faults folder.old) (F.faults folder.new) result }
{
    let sources = read_round(alloc, folder, &mut progress.size, round)?;
    let modules = modules_of(alloc, folder, sources, skip, steps)?;
    let paths = required_by(alloc, modules.as_slice())?;
    keep(alloc, &mut progress.modules, modules)?;
    Ok(not_loaded(alloc, &progress.modules, paths)?)
}

// The modules in order of their paths.
fn by_path(alloc: Global, modules: BTreeMap<ModulePath, Loaded>) -> Result<Vec<Loaded>, OutOfMemory>
    ensures listed { IfOk result (λ listed. listed.items ≡ tree.values modules) }
    ensures ordered { OnOk result (tree.IsOrdered (slice_cmp nat_cmp) modules) }
{
    let mut listed = Vec::new(alloc);
    for (_, module) in modules {
        listed.push(module)?;
    }
    Ok(listed)
}

/// Loads the application of an entry, in order of path; modules without a tree are refused, or skipped.
///
/// Round 0 is the entry, and each further round has the modules that the last one requires and that no
/// earlier round has. A refusal is for the first round that has one module too many, or else a bad one.
pub(crate) fn load<F: Folder, L: Ledger>(
    alloc: Global,
    folder: &mut F,
    entry: Option<&str>,
    skip: bool,
    steps: &mut Steps<L>,
) -> Result<Application, Stop>
    ensures gives { Gives (λ m app. IsWhole (begun (option_map (λ t. t.now) entry.entry) skip) m app.entry app.modules.items)
        (IsLoadRefusal (begun (option_map (λ t. t.now) entry.entry) skip))
        (F.files folder.old) (F.faults folder.old) (F.faults folder.new) result }
    ensures sorted { IfOk result (λ app. Ascend (map (λ l. l.path) app.modules.items)) }
    ensures analysed { IfOk result (λ app. All IsAnalysed app.modules.items) }
    ensures entry { IfOk result (λ app. Contains (map (λ l. l.path) app.modules.items) app.entry) }
    ensures few { IfOk result (λ app. length app.modules.items ≤ module_limit) }
    ensures same { F.files folder.new ≡ F.files folder.old }
    ensures counts { CountsFaults (F.faults folder.old) (F.faults folder.new) result }
{
    let first = entry_path(alloc, folder, entry)?;
    load_from(alloc, folder, first, skip, steps)
}

// Loads the application whose entry is the module at this path.
fn load_from<F: Folder, L: Ledger>(
    alloc: Global,
    folder: &mut F,
    first: ModulePath,
    skip: bool,
    steps: &mut Steps<L>,
) -> Result<Application, Stop>
    ensures gives { Gives (λ m app. (asked : Option (List ℕ)) → path_asked asked m ≡ Some first → IsWhole (begun asked skip) m app.entry app.modules.items)
        (λ m owed. (asked : Option (List ℕ)) → path_asked asked m ≡ Some first → IsLoadRefusal (begun asked skip) m owed)
        (F.files folder.old) (F.faults folder.old) (F.faults folder.new) result }
    ensures sorted { IfOk result (λ app. Ascend (map (λ l. l.path) app.modules.items)) }
    ensures analysed { IfOk result (λ app. All IsAnalysed app.modules.items) }
    ensures entry { IfOk result (λ app. Contains (map (λ l. l.path) app.modules.items) app.entry) }
    ensures few { IfOk result (λ app. length app.modules.items ≤ module_limit) }
    ensures same { F.files folder.new ≡ F.files folder.old }
    ensures counts { CountsFaults (F.faults folder.old) (F.faults folder.new) result }
{
    let mut progress = Progress {
        modules: BTreeMap::new(alloc),
        size: Size {
            modules: 0,
            bytes: 0,
        },
    };
    let mut round = vec![in alloc; first.copy(alloc)?]?;
    while !round.is_empty() {
        round = load_round(alloc, folder, &mut progress, round, skip, steps)?;
    }
    let modules = by_path(alloc, progress.modules)?;
    Ok(Application {
        entry: first,
        modules,
    })
}
