//! Advisories by the names of their packages.
ghost use Rattle.std.specs.Prelude.{◌≡◌, ◌++◌, ℕ, [], List, IfOk, OnOk, if◌then◌else◌};
ghost use Rattle.std.specs.List.{list_any};
ghost use Rattle.std.specs.Str.{bytes_eq};
ghost use Rattle.alarms.specs.Packages.{place_if, places_in, places_of};

use advisory_reader::Advisory;
use jam_base::{List as Places, OutOfMemory};
use std::alloc::Global;
use std::collections::BTreeMap;
use std::marker::Model;

/// Advisories that are found by the names of their packages.
#[derive(Drop)]
pub(crate) struct ByPackage<'a> {
    advisories: &'a [Advisory],
    // The places of the advisories under each name.
    places: BTreeMap<&'a str, Places<u32>>,
}

impl<'a> Model for ByPackage<'a> {
    ghost use Rattle.std.specs.Prelude.{List};
    ghost use Rattle.advisory_reader.specs.declared.advisory.Advisory.{Advisory as AnyAdvisory};
    ghost use Rattle.alarms.specs.Packages.{AreKept};

    ghost Value = { List AnyAdvisory };

    ghost view = { λ b. b.advisories.now };

    ghost invariant = { λ b. AreKept b.places b.advisories.now };
}

impl<'a> ByPackage<'a> {
    /// These advisories.
    pub(crate) fn of(
        alloc: Global,
        advisories: &'a [Advisory],
    ) -> Result<ByPackage<'a>, OutOfMemory>
        ensures { IfOk result (λ made. made ≡ advisories.now) }
    {
        let mut places = BTreeMap::new(alloc);
        for i in 0..advisories.len() {
            let package = advisories[i].package.as_str();
            push_place(alloc, package, number(i)?, &mut places)?;
        }
        Ok(ByPackage { advisories, places })
    }

    /// All of them.
    pub(crate) fn all(&self) -> &[Advisory]
        ensures { result.now ≡ self.now }
    {
        self.advisories
    }

    /// The places of those on the package of this name, in their order.
    pub(crate) fn places(&self, name: &str) -> &[u32]
        ensures { result.now ≡ places_of self.now name.now }
    {
        match self.places.get(name) {
            Some(places) => places.as_slice(),
            None => &[],
        }
    }

    /// Whether one is on the package of this name.
    pub(crate) fn has(&self, name: &str) -> bool
        ensures { result ≡ list_any (λ a. bytes_eq name.now a.package) self.now }
    {
        !self.places(name).is_empty()
    }
}

/// A place in a list as a number.
pub(crate) fn number(place: usize) -> Result<u32, OutOfMemory>
    ensures { IfOk result (λ n. n ≡ place) }
{
    match u32::try_from(place) {
        Ok(number) => Ok(number),
        Err(_) => Err(OutOfMemory),
    }
}

// Keeps one more place under a name.
fn push_place<'a>(
    alloc: Global,
    key: &'a str,
    place: u32,
    places: &mut BTreeMap<&'a str, Places<u32>>,
) -> Result<(), OutOfMemory>
    ensures { OnOk result ((name : List ℕ) → places_in places.new name ≡ places_in places.old name ++ place_if name key.now place) }
{
    let mut here = taken(alloc, key, places);
    here.push(place)?;
    put(key, Places::of(here), places)
}

// Takes the places that are kept under a name.
fn taken<'a>(alloc: Global, key: &'a str, places: &mut BTreeMap<&'a str, Places<u32>>) -> Vec<u32>
    ensures here { result.items ≡ places_in places.old key.now }
    ensures left { (name : List ℕ) → places_in places.new name ≡ (if bytes_eq key.now name then [] else places_in places.old name) }
{
    match places.remove(key) {
        Some(here) => here.into_vec(),
        None => Vec::new(alloc),
    }
}

// Keeps places under a name, in place of those that were there.
fn put<'a>(
    key: &'a str,
    here: Places<u32>,
    places: &mut BTreeMap<&'a str, Places<u32>>,
) -> Result<(), OutOfMemory>
    ensures { OnOk result ((name : List ℕ) → places_in places.new name ≡ (if bytes_eq key.now name then here else places_in places.old name)) }
{
    places.insert(key, here)?;
    Ok(())
}
