//! The entries in the `packages` of a lockfile.
ghost use Rattle.std.specs.Prelude.{◌≡◌, ◌⊎◌, ℕ, List, Ok, Err, Some, None, IfOk, IfErr, string_bytes};
ghost use Rattle.std.specs.Option.{option_map, unwrap_or};
ghost use Rattle.serde_json.specs.Find.{get};
ghost use Rattle.serde_json.specs.View.{members_view, view};
ghost use Rattle.lock_reader.specs.Lock.{IsAscending, entries_of, entry_of, name_of, optional_text, texts_of as texts_in};
ghost use Rattle.lock_reader.specs.declared.fault.LockFault.TheVariants as fault;

use crate::fault::{LockFault, wrong_shape};
use crate::lock::LockEntry;
use jam_base::{OutOfMemory, Text};
use serde_json::{Map, Value};
use std::alloc::Global;

/// A member of an object that is a text where it is there at all. None where it is something else.
fn optional_text<'v>(value: &'v Value, name: &str) -> Option<Option<&'v str>>
    ensures { option_map (λ o. option_map (λ text. text.now) o) result ≡ optional_text (get name.now (view value.now)) }
{
    match value.get(name) {
        None => Some(None),
        Some(member) => match member.as_str() {
            Some(text) => Some(Some(text)),
            None => None,
        },
    }
}

/// The name of the package at a location: the given one, else what stands after the last
/// `node_modules/`, else the empty text.
fn name_of<'t>(location: &'t str, given: Option<&'t str>) -> &'t str
    ensures { result.now ≡ name_of location.now (option_map (λ name. name.now) given.entry) }
{
    if let Some(name) = given {
        return name;
    }
    match location.rsplit_once("node_modules/") {
        Some((_, name)) => name,
        None => "",
    }
}

/// A copy of a text that may be there.
fn copy_of(alloc: Global, text: Option<&str>) -> Result<Option<Text>, OutOfMemory>
    ensures { IfOk result (λ copy. copy ≡ option_map (λ t. t.now) text.entry) }
{
    match text {
        Some(text) => Ok(Some(Text::of(alloc, text)?)),
        None => Ok(None),
    }
}

/// The `name` and the `version` of an object, each a text where it is there. None for another value.
#[tactic(auto, unfolding(crate::specs::Lock::texts_of))]
fn texts_of(value: &Value) -> Option<(Option<&str>, Option<&str>)>
    ensures { option_map (λ texts. (option_map (λ name. name.now) texts.0, option_map (λ version. version.now) texts.1)) result
        ≡ texts_in (view value.now) }
{
    if !value.is_object() {
        return None;
    }
    match (
        optional_text(value, "name"),
        optional_text(value, "version"),
    ) {
        (Some(name), Some(version)) => Some((name, version)),
        _ => None,
    }
}

/// The entry at a location that a value describes.
#[tactic(auto, unfolding(crate::specs::Lock::entry_of))]
fn read_entry(alloc: Global, location: &str, value: &Value) -> Result<LockEntry, LockFault>
    ensures entry { IfOk result (λ e. entry_of location.now (view value.now) ≡ Some e) }
    ensures fault { IfErr result (λ f. (f ≡ fault.OutOfMemory) ⊎ ((f ≡ fault.Shape location.now) × (entry_of location.now (view value.now) ≡ None))) }
{
    let Some((name, version)) = texts_of(value) else {
        return Err(wrong_shape(alloc, location));
    };
    Ok(LockEntry {
        location: Text::of(alloc, location)?,
        name: Text::of(alloc, name_of(location, name))?,
        version: copy_of(alloc, version)?,
    })
}

/// The entries that the members of `packages` describe.
#[tactic(auto, unfolding(crate::specs::Lock::entries_of))]
pub(crate) fn read_entries(
    alloc: Global,
    packages: &Map<String, Value>,
) -> Result<Vec<LockEntry>, LockFault>
    ensures entries { IfOk result (λ v. entries_of (members_view packages.now.entries) ≡ Ok v.items) }
    ensures ascending { IfOk result (λ v. IsAscending v.items) }
    ensures fault { IfErr result (λ f. (f ≡ fault.OutOfMemory) ⊎ (entries_of (members_view packages.now.entries) ≡ Err f)) }
{
    let mut entries = Vec::new(alloc);
    for (location, value) in packages.iter() {
        entries.push(read_entry(alloc, location.as_str(), value)?)?;
    }
    Ok(entries)
}
