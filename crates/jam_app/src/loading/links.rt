//! Links between loaded modules.
ghost use Rattle.std.specs.Prelude.{◌≡◌, ◌↔◌, ◌≤◌, ℕ, [], length, map, All, Contains, Some, IfOk, OnOk};
ghost use Rattle.composer.specs.Parts.{AreLinks};
ghost use Rattle.jam_app.specs.Loading.{IsAnalysed};
ghost use Rattle.jam_app.specs.Links.{Adds, AreUpTo, LeadFrom, LinksAmong, LinksBelow, LinksOf, MayAdd, StandsAt};
ghost use Rattle.jam_app.specs.Rounds.{Ascend};

use crate::loading::loaded::{Led, Loaded};
use composer::Link;
use jam_base::{ModulePath, OutOfMemory};
use std::alloc::Global;

/// The links between the loaded modules, which go by their paths. Modules are given by their places.
pub(crate) fn links_of(alloc: Global, loaded: &[Loaded]) -> Result<Vec<Link>, OutOfMemory>
    requires sorted { Ascend (map (λ l. l.path) loaded.now) }
    requires few { length loaded.now ≤ 4294967295 }
    requires analysed { All IsAnalysed loaded.now }
    ensures links { IfOk result (λ links. Adds (LinksBelow loaded.now (length loaded.now)) [] links.items) }
    ensures ascend { IfOk result (λ links. AreLinks (map (λ l. l.summary.lists) loaded.now) links.items) }
{
    let mut links = Vec::new(alloc);
    for m in 0..loaded.len() {
        let targets = loaded[m].targets.as_slice();
        push_links(loaded, m as u32, targets, &mut links)?;
    }
    Ok(links)
}

// Adds the links of module m, whose requires lead to these targets.
fn push_links(
    loaded: &[Loaded],
    m: u32,
    targets: &[Led],
    links: &mut Vec<Link>,
) -> Result<(), OutOfMemory>
    requires sorted { Ascend (map (λ l. l.path) loaded.now) }
    requires few { length loaded.now ≤ 4294967295 }
    requires led { LeadFrom loaded.now m targets.now }
    requires before { AreUpTo (map (λ l. l.summary.lists) loaded.now) m [] links.old.items }
    ensures links { OnOk result (Adds (LinksAmong loaded.now m targets.now) links.old.items links.new.items) }
    ensures behind { OnOk result (AreUpTo (map (λ l. l.summary.lists) loaded.now) m targets.now links.new.items) }
{
    for led in targets {
        push_link(loaded, m, led, links)?;
    }
    Ok(())
}

// Adds the link of module m to a target, where that is loaded.
fn push_link(loaded: &[Loaded], m: u32, led: &Led, links: &mut Vec<Link>) -> Result<(), OutOfMemory>
    requires sorted { Ascend (map (λ l. l.path) loaded.now) }
    requires few { length loaded.now ≤ 4294967295 }
    ensures links { OnOk result (Adds (LinksOf loaded.now m led.now) links.old.items links.new.items) }
    ensures one { OnOk result (MayAdd (length loaded.now) m led.now.offset links.old.items links.new.items) }
{
    if let Some(target) = place_of_path(loaded, &led.path) {
        links.push(Link {
            module: m,
            offset: led.offset,
            target,
        })?;
    }
    Ok(())
}

/// The place of the module with a path that one of them has.
pub(crate) fn place_of_loaded(loaded: &[Loaded], path: &ModulePath) -> u32
    requires sorted { Ascend (map (λ l. l.path) loaded.now) }
    requires few { length loaded.now ≤ 4294967295 }
    requires there { Contains (map (λ l. l.path) loaded.now) path.now }
    ensures { StandsAt loaded.now result path.now }
{
    match place_of_path(loaded, path) {
        Some(place) => place,
        None => 0,
    }
}

/// The place of the module with the path.
pub(crate) fn place_of_path(loaded: &[Loaded], path: &ModulePath) -> Option<u32>
    requires sorted { Ascend (map (λ l. l.path) loaded.now) }
    requires few { length loaded.now ≤ 4294967295 }
    ensures { (place : ℕ) → (result ≡ Some place) ↔ StandsAt loaded.now place path.now }
{
    match loaded.binary_search_by(|one| one.path.cmp(path)) {
        Ok(place) => Some(place as u32),
        Err(_) => None,
    }
}
