//! The search for alarms: module by module, the advisories that speak of the package which owns it, and
//! its functions.
ghost use Rattle.std.specs.Prelude.{◌≡◌, ◌<◌, ◌&&◌, List, length, IfOk, OnOk, Some, is_some, slice_get};
ghost use Rattle.std.specs.Option.{option_map};
ghost use Rattle.semver.specs.Identifiers.{parts_of};
ghost use Rattle.composer.specs.declared.application.Part.{Part as AnyPart};
ghost use Rattle.lock_reader.specs.Lock.{IsAscending};
ghost use Rattle.reach_path.specs.Reached.{path_to};
ghost use Rattle.alarms.specs.Affected as affected;
ghost use Rattle.alarms.specs.Alarms.{AreAlarms};
ghost use Rattle.alarms.specs.Searching.{Adds, Hits, HitsAny, HitsAt, HitsBy, HitsOne, OfModule};
ghost use Rattle.alarms.specs.Versions as versions;

use crate::affected::{inside, names_any};
use crate::found::Found;
use crate::packages::{ByPackage, number};
use crate::version::version_of;
use advisory_reader::{Advisory, Selector};
use composer::Part;
use jam_base::{FunctionRef, OutOfMemory};
use js_scopes::FunctionInfo;
use lock_reader::{Lock, LockEntry};
use reach_path::Reach;
use semver::Version;
use std::alloc::Global;

/// The alarms of the loaded modules, in their order: each advisory, installed package and function of it
/// where the range of the advisory holds for the package's version, a selector names the function and it
/// is reachable. Modules and functions are given as in the call edges that `reach` followed.
pub fn alarms(
    alloc: Global,
    lock: &Lock,
    advisories: &[Advisory],
    parts: &[Part],
    reach: &Reach,
) -> Result<Vec<Found>, OutOfMemory>
    requires ascending { IsAscending lock.now.entries }
    ensures { IfOk result (λ found. AreAlarms lock.now.entries advisories.now parts.now (λ f. is_some (path_to reach.now f)) found.items) }
{
    let by_package = ByPackage::of(alloc, advisories)?;
    let mut found = Vec::new(alloc);
    for m in 0..parts.len() {
        push_module(
            alloc,
            lock,
            &by_package,
            reach,
            number(m)?,
            &parts[m],
            &mut found,
        )?;
    }
    found.sort()?;
    found.dedup();
    Ok(found)
}

// Adds the alarms for the functions of module m.
fn push_module(
    alloc: Global,
    lock: &Lock,
    advisories: &ByPackage<'_>,
    reach: &Reach,
    m: u32,
    part: &Part,
    found: &mut Vec<Found>,
) -> Result<(), OutOfMemory>
    requires ascending { IsAscending lock.now.entries }
    ensures { (parts : List AnyPart) → slice_get parts m ≡ Some part.now
        → OnOk result (Adds (OfModule lock.now.entries advisories.now parts (λ f. is_some (path_to reach.now f)) m) found.old.items found.new.items) }
{
    let Some(place) = lock.owner_place(&part.path) else {
        return Ok(());
    };
    let entry = &lock.entries.as_slice()[place];
    let owned = Owned {
        place: number(place)?,
        entry,
        version: version_of(alloc, entry)?,
        m,
        inside: inside(entry.location.as_str(), part.path.as_str()),
        functions: part.summary.functions(),
    };
    owned.push_all(advisories, reach, found)?;
    Ok(())
}

// A module that an installed package owns: the place of the package, its entry and its version, and the
// number of the module, its path inside the package and its functions.
#[derive(Drop)]
struct Owned<'s> {
    place: u32,
    entry: &'s LockEntry,
    version: Option<Version>,
    m: u32,
    inside: &'s str,
    functions: &'s [FunctionInfo],
}

// Whether the advisory speaks of the installed package, which has this version.
fn concerns(advisory: &Advisory, entry: &LockEntry, version: &Option<Version>) -> bool
    requires { option_map parts_of version.now ≡ versions.version_of entry.now }
    ensures { result ≡ versions.concerns advisory.now entry.now }
{
    if entry.name.as_str() != advisory.package.as_str() {
        return false;
    }
    match version {
        Some(version) => advisory.range.holds(version),
        None => false,
    }
}

// Whether the function is reachable and one of the selectors names it.
fn is_hit(
    reach: &Reach,
    inside: &str,
    selectors: &[Selector],
    number: FunctionRef,
    function: &FunctionInfo,
) -> bool
    ensures { result ≡ (is_some (path_to reach.now number) && affected.names_any inside.now function.now.name selectors.now) }
{
    reach.has(number) && names_any(inside, function.name.as_str(), selectors)
}

impl<'s> Owned<'s> {
    // Adds the alarms of all advisories.
    fn push_all(
        &self,
        advisories: &ByPackage<'_>,
        reach: &Reach,
        found: &mut Vec<Found>,
    ) -> Result<(), OutOfMemory>
        requires { option_map parts_of self.now.version ≡ versions.version_of self.now.entry.now }
        ensures { OnOk result (Adds (HitsAny (λ f. is_some (path_to reach.now f)) advisories.now self.now) found.old.items found.new.items) }
    {
        let places = advisories.places(self.entry.name.as_str());
        for k in 0..places.len() {
            self.push_at(places[k], advisories, reach, found)?;
        }
        Ok(())
    }

    // Adds the alarms of the advisory at a place.
    fn push_at(
        &self,
        place: u32,
        advisories: &ByPackage<'_>,
        reach: &Reach,
        found: &mut Vec<Found>,
    ) -> Result<(), OutOfMemory>
        requires version { option_map parts_of self.now.version ≡ versions.version_of self.now.entry.now }
        requires there { place < length advisories.now }
        ensures { OnOk result (Adds (HitsAt (λ f. is_some (path_to reach.now f)) advisories.now self.now place) found.old.items found.new.items) }
    {
        let advisory = &advisories.all()[place as usize];
        self.push_advisory(place, advisory, reach, found)
    }

    // Adds the alarms of the advisory at place i, if it speaks of the package.
    fn push_advisory(
        &self,
        i: u32,
        advisory: &Advisory,
        reach: &Reach,
        found: &mut Vec<Found>,
    ) -> Result<(), OutOfMemory>
        requires { option_map parts_of self.now.version ≡ versions.version_of self.now.entry.now }
        ensures { OnOk result (Adds (HitsBy (λ f. is_some (path_to reach.now f)) i advisory.now self.now) found.old.items found.new.items) }
    {
        if concerns(advisory, self.entry, &self.version) {
            self.push_functions(i, advisory.functions.as_slice(), reach, found)?;
        }
        Ok(())
    }

    // Adds the alarms of the advisory at place i, which has these selectors.
    fn push_functions(
        &self,
        i: u32,
        selectors: &[Selector],
        reach: &Reach,
        found: &mut Vec<Found>,
    ) -> Result<(), OutOfMemory>
        ensures { OnOk result (Adds (Hits (λ f. is_some (path_to reach.now f)) i selectors.now self.now) found.old.items found.new.items) }
    {
        for f in 0..self.functions.len() {
            self.push_function(i, selectors, number(f)?, &self.functions[f], reach, found)?;
        }
        Ok(())
    }

    // Adds the alarm for function number f, if it is a hit.
    fn push_function(
        &self,
        i: u32,
        selectors: &[Selector],
        f: u32,
        function: &FunctionInfo,
        reach: &Reach,
        found: &mut Vec<Found>,
    ) -> Result<(), OutOfMemory>
        ensures { OnOk result (Adds (HitsOne (λ f. is_some (path_to reach.now f)) i selectors.now self.now f function.now) found.old.items found.new.items) }
    {
        let number = FunctionRef {
            module: self.m,
            function: f,
        };
        if is_hit(reach, self.inside, selectors, number, function) {
            found.push(Found {
                advisory: i,
                entry: self.place,
                function: number,
            })?;
        }
        Ok(())
    }
}
