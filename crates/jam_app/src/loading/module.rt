//! The modules of a round.
ghost use Rattle.std.specs.Prelude.{◌≡◌, ◌≤◌, ℕ, true, false, Option, map, All, IfErr, IfOk};
ghost use Rattle.jam_base.specs.Files.{Files};
ghost use Rattle.jam_app.specs.Loading.{IsAnalysed, IsKept, IsSummaryOf};
ghost use Rattle.js_tree.specs.Spells.{SpellsSome};
ghost use Rattle.jam_app.specs.Reading.{HasBad, IsParsed, IsRefusedFor, IsResolved, parsed_of, source_of};
ghost use Rattle.jam_app.specs.Texts.{IsBad};
ghost use Rattle.jam_app.specs.Stops.{CountsFaults, Gives, HasBadCause, HasStopCause, StopsFor};

use crate::Stop;
use crate::answers::message::{at_construct, not_in_profile, too_large};
use crate::loading::ends::{Ends, ends_of};
use crate::loading::loaded::Loaded;
use crate::loading::source::Source;
use crate::loading::text::{Bad, tree_of};
use flow_fold::{Summary, fold};
use flow_rules::constraints;
use jam_base::{Folder, ModulePath, OutOfMemory, Steps};
use js_scopes::bind;
use js_tree::Tree;
use sqlite_items::Items;
use std::alloc::Global;
use std::sync::ledger::Ledger;

// What is kept of what a tree says of the values of its module.
fn summary_of(alloc: Global, tree: &Tree) -> Result<Summary, OutOfMemory>
    requires { SpellsSome tree.now }
    ensures { IfOk result (IsSummaryOf tree.now) }
{
    let bindings = bind(alloc, tree)?;
    let made = constraints(alloc, tree, &bindings)?;
    fold(alloc, made)
}

// What a module without a tree means for the run.
fn stop_for(alloc: Global, path: ModulePath, bad: Bad) -> Stop
    ensures { StopsFor path bad result }
{
    match bad {
        Bad::TooLarge(length) => too_large(alloc, path, length),
        Bad::Construct(place, what) => at_construct(alloc, path, place, what),
        Bad::At(place) => not_in_profile(alloc, path, place),
        Bad::OutOfMemory => Stop::OutOfMemory,
    }
}

// A file, and the tree of its text; that of a module that is skipped is empty.
#[derive(Drop)]
struct Parsed {
    source: Source,
    tree: Tree,
    skipped: bool,
}

// A file whose text has no tree, where that is no want of memory and such files are skipped.
fn skipped_file(alloc: Global, source: Source) -> Parsed
    requires { IsBad source.text }
    ensures source { result.source ≡ source }
    ensures parsed { IsParsed true result }
{
    Parsed {
        source,
        tree: Tree {
            body: Items::new(alloc),
        },
        skipped: true,
    }
}

// The tree of a file; where bad modules are skipped, it may be one that has none.
fn parsed_file<L: Ledger>(
    alloc: Global,
    source: Source,
    skip: bool,
    steps: &mut Steps<L>,
) -> Result<Parsed, Stop>
    ensures ok { IfOk result (λ p. (p.source ≡ source) × IsParsed skip p) }
    ensures err { IfErr result (λ stop. (files : Option Files) (before now : ℕ) → HasStopCause (λ m owed. (skip ≡ false) × IsRefusedFor source.path source.text owed) files before now stop) }
{
    match tree_of(alloc, source.text.as_str(), steps) {
        Ok(tree) => Ok(Parsed {
            source,
            tree,
            skipped: false,
        }),
        Err(bad) => without_tree(alloc, source, skip, bad),
    }
}

// What a file without a tree means: it is skipped, unless such files aren't, or there was no memory.
fn without_tree(alloc: Global, source: Source, skip: bool, bad: Bad) -> Result<Parsed, Stop>
    requires { HasBadCause source.text bad }
    ensures ok { IfOk result (λ p. (p.source ≡ source) × IsParsed skip p) }
    ensures err { IfErr result (λ stop. (files : Option Files) (before now : ℕ) → HasStopCause (λ m owed. (skip ≡ false) × IsRefusedFor source.path source.text owed) files before now stop) }
{
    if !skip {
        return Err(stop_for(alloc, source.path, bad));
    }
    match bad {
        Bad::TooLarge(_) => Ok(skipped_file(alloc, source)),
        Bad::Construct(_, _) => Ok(skipped_file(alloc, source)),
        Bad::At(_) => Ok(skipped_file(alloc, source)),
        Bad::OutOfMemory => Err(Stop::OutOfMemory),
    }
}

// The trees of the files of a round, in their order.
fn parsed_round<L: Ledger>(
    alloc: Global,
    sources: Vec<Source>,
    skip: bool,
    steps: &mut Steps<L>,
) -> Result<Vec<Parsed>, Stop>
    ensures ok { IfOk result (λ made. (map (λ p. p.source) made.items ≡ sources.items) × All (IsParsed skip) made.items) }
    ensures err { IfErr result (λ stop. (files : Option Files) (before now : ℕ) → HasStopCause (λ m owed. HasBad skip sources.items owed) files before now stop) }
{
    let mut made = Vec::new(alloc);
    for source in sources {
        made.push(parsed_file(alloc, source, skip, steps)?)?;
    }
    Ok(made)
}

// The module of a file with a tree.
fn module_with<F: Folder>(alloc: Global, folder: &mut F, parsed: Parsed) -> Result<Loaded, Stop>
    requires { SpellsSome parsed.tree }
    ensures path { IfOk result (λ l. l.path ≡ parsed.source.path) }
    ensures gives { Gives (λ m l. (parsed_of l ≡ parsed) × IsResolved m l)
        (λ m owed. ⊥) (F.files folder.old) (F.faults folder.old) (F.faults folder.new) result }
    ensures analysed { IfOk result IsAnalysed }
    ensures same { F.files folder.new ≡ F.files folder.old }
    ensures counts { CountsFaults (F.faults folder.old) (F.faults folder.new) result }
{
    let summary = summary_of(alloc, &parsed.tree)?;
    let requires_ = summary.requires_();
    let ends = ends_of(alloc, folder, &parsed.source.path, requires_)?;
    let Parsed {
        source,
        tree,
        skipped,
    } = parsed;
    let Source { path, text } = source;
    let Ends { targets, missing } = ends;
    Ok(Loaded {
        path,
        text,
        tree,
        skipped,
        summary,
        targets,
        missing,
    })
}

/// The modules of the files of a round, in their order: first the trees of all their texts are found,
/// then where their requires lead.
pub(crate) fn modules_of<F: Folder, L: Ledger>(
    alloc: Global,
    folder: &mut F,
    sources: Vec<Source>,
    skip: bool,
    steps: &mut Steps<L>,
) -> Result<Vec<Loaded>, Stop>
    ensures gives { Gives (λ m modules. (map source_of modules.items ≡ sources.items) × All (IsKept skip m) modules.items)
        (λ m owed. HasBad skip sources.items owed) (F.files folder.old) (F.faults folder.old) (F.faults folder.new) result }
    ensures paths { IfOk result (λ modules. map (λ l. l.path) modules.items ≡ map (λ s. s.path) sources.items) }
    ensures analysed { IfOk result (λ modules. All IsAnalysed modules.items) }
    ensures same { F.files folder.new ≡ F.files folder.old }
    ensures counts { CountsFaults (F.faults folder.old) (F.faults folder.new) result }
{
    let parsed = parsed_round(alloc, sources, skip, steps)?;
    resolved_round(alloc, folder, parsed)
}

// The modules of a round, whose texts have these trees.
fn resolved_round<F: Folder>(
    alloc: Global,
    folder: &mut F,
    round: Vec<Parsed>,
) -> Result<Vec<Loaded>, Stop>
    requires { All (λ p. SpellsSome p.tree) round.items }
    ensures gives { Gives (λ m modules. (map parsed_of modules.items ≡ round.items) × All (IsResolved m) modules.items)
        (λ m owed. ⊥) (F.files folder.old) (F.faults folder.old) (F.faults folder.new) result }
    ensures paths { IfOk result (λ modules. map (λ l. l.path) modules.items ≡ map (λ p. p.source.path) round.items) }
    ensures analysed { IfOk result (λ modules. All IsAnalysed modules.items) }
    ensures same { F.files folder.new ≡ F.files folder.old }
    ensures counts { CountsFaults (F.faults folder.old) (F.faults folder.new) result }
{
    let mut modules = Vec::new(alloc);
    for parsed in round {
        let module = module_with(alloc, folder, parsed)?;
        modules.push(module)?;
    }
    Ok(modules)
}
