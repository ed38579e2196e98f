//! The notes of a report.
ghost use Rattle.std.specs.Prelude.{◌≡◌, ◌++◌, ◌≤◌, ℕ, List, IfOk, OnOk, length, map};
ghost use Rattle.alarms.specs.Alarms.{unversioned};
ghost use Rattle.lock_reader.specs.Lock.{IsAscending};
ghost use Rattle.jam_app.specs.Loading.{module_of};
ghost use Rattle.jam_app.specs.declared.audit.noted.Noted.{Noted as AnyNoted};
ghost use Rattle.jam_app.specs.Notes as specs_of;
ghost use Rattle.jam_app.specs.Printing.{printed_of, spot_at, spot_of};

use crate::answers::printed::Printed;
use crate::audit::noted::{Noted, noted_of};
use crate::loading::loaded::Loaded;
use advisory_reader::Advisory;
use alarms::locations_without_version;
use jam_base::{OutOfMemory, Place, Text};
use lock_reader::Lock;
use report_text::{LineColumn, Note};
use std::alloc::Global;

/// The notes of the loaded modules, by their paths, and of the installed packages, by their locations.
pub(crate) fn notes_of(
    alloc: Global,
    lock: &Lock,
    advisories: &[Advisory],
    loaded: &[Loaded],
    printed: &[Printed],
) -> Result<Vec<Note>, OutOfMemory>
    requires ascending { IsAscending lock.now.entries }
    requires printed { printed.now ≡ map printed_of (map module_of loaded.now) }
    ensures { IfOk result (λ notes. notes.items ≡ specs_of.all_notes lock.now.entries advisories.now loaded.now) }
{
    let mut notes = Vec::new(alloc);
    for m in 0..loaded.len() {
        let one = &loaded[m];
        push_module(alloc, lock, one, &printed[m], &mut notes)?;
    }
    push_unversioned(alloc, lock, advisories, &mut notes)?;
    Ok(notes)
}

// Adds the notes of a module.
fn push_module(
    alloc: Global,
    lock: &Lock,
    one: &Loaded,
    printed: &Printed,
    notes: &mut Vec<Note>,
) -> Result<(), OutOfMemory>
    requires ascending { IsAscending lock.now.entries }
    requires printed { printed.now ≡ printed_of (module_of one.now) }
    ensures { OnOk result (notes.new.items ≡ notes.old.items ++ specs_of.loaded_notes lock.now.entries one.now) }
{
    let owned = lock.owner_place(&one.path).is_some();
    let noted = noted_of(alloc, owned, one)?;
    if noted.is_empty() {
        return Ok(());
    }
    let offsets = offsets_of(alloc, noted.as_slice())?;
    let places = printed.places(alloc, offsets.as_slice())?;
    push_noted(
        alloc,
        printed.path(),
        noted.as_slice(),
        places.as_slice(),
        notes,
    )
}

// The offsets of what is noted.
fn offsets_of(alloc: Global, noted: &[Noted]) -> Result<Vec<u32>, OutOfMemory>
    ensures { IfOk result (λ offsets. offsets.items ≡ map (λ n. n.offset) noted.now) }
{
    Ok(noted.iter().map(|one| one.offset).collect(alloc)?)
}

// Adds what is noted at these places of a module.
fn push_noted(
    alloc: Global,
    path: &str,
    noted: &[Noted],
    places: &[Place],
    notes: &mut Vec<Note>,
) -> Result<(), OutOfMemory>
    requires { length noted.now ≤ length places.now }
    ensures { (text : List ℕ) → map spot_of places.now ≡ map (λ (n : AnyNoted). spot_at text n.offset) noted.now
        → OnOk result (notes.new.items ≡ notes.old.items ++ map (specs_of.note_at path.now text) noted.now) }
{
    for i in 0..noted.len() {
        notes.push(note_of(alloc, path, &noted[i], &places[i])?)?;
    }
    Ok(())
}

// The note of what is noted at a place of a module.
fn note_of(alloc: Global, path: &str, noted: &Noted, place: &Place) -> Result<Note, OutOfMemory>
    ensures { (text : List ℕ) → spot_of place.now ≡ spot_at text noted.now.offset → IfOk result (λ note. note ≡ specs_of.note_at path.now text noted.now) }
{
    let place = LineColumn {
        line: place.line,
        column: place.column,
    };
    Ok(Note {
        path: Text::of(alloc, path)?,
        place: Some(place),
        text: noted.remark.text(alloc)?,
    })
}

// Adds the notes of installed packages without a version.
fn push_unversioned(
    alloc: Global,
    lock: &Lock,
    advisories: &[Advisory],
    notes: &mut Vec<Note>,
) -> Result<(), OutOfMemory>
    ensures { OnOk result (notes.new.items ≡ notes.old.items ++ map specs_of.unversioned_note (unversioned advisories.now lock.now.entries)) }
{
    let locations = locations_without_version(alloc, lock, advisories)?;
    for location in locations {
        notes.push(Note {
            path: location,
            place: None,
            text: Text::of(alloc, "no version")?,
        })?;
    }
    Ok(())
}
