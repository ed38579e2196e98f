//! What is noted of a module.
ghost use Rattle.std.specs.Prelude.{◌≡◌, ◌++◌, IfOk, OnOk, map};
ghost use Rattle.std.specs.Cmp.{on_total, then_total, nat_cmp_total};
ghost use Rattle.std.specs.List.{filter_map};
ghost use Rattle.jam_base.specs.Ascending.{ascending as ascending_of};
ghost use Rattle.jam_app.specs.Notes as notes;

use crate::loading::loaded::{Loaded, Missing};
use crate::loading::text::TEXT_LIMIT;
use flow_rules::{ModuleNote, NoteKind};
use jam_base::{OutOfMemory, Ranked, Text, ascending};
use std::alloc::Global;
use std::cmp::Ordering;

/// What is noted.
#[derive(Debug, Drop)]
pub(crate) enum Remark {
    /// No installed package owns the module.
    NotInLockfile,
    /// A require whose text isn't known.
    DynamicRequire,
    /// `require` is used as a value.
    RequireValue,
    /// A require with this text leads nowhere.
    NotFound(Text),
    /// The module is skipped: its file is too large.
    TooLarge,
    /// The module is skipped: no tree spells its text.
    NotInProfile,
}

/// What is noted at an offset of a module, in bytes.
#[derive(Debug, Drop)]
pub(crate) struct Noted {
    pub(crate) offset: u32,
    pub(crate) remark: Remark,
}

impl Remark {
    // Its place among the notes at one offset.
    fn rank(&self) -> u32
        ensures { result ≡ notes.rank_of self.now }
    {
        match self {
            Remark::NotInLockfile => 0,
            Remark::DynamicRequire => 1,
            Remark::RequireValue => 2,
            Remark::NotFound(_) => 3,
            Remark::TooLarge | Remark::NotInProfile => 4,
        }
    }

    /// Its text.
    pub(crate) fn text(&self, alloc: Global) -> Result<Text, OutOfMemory>
        ensures { IfOk result (λ text. text ≡ notes.text_of self.now) }
    {
        match self {
            Remark::NotInLockfile => Text::of(alloc, "not in the lockfile"),
            Remark::DynamicRequire => Text::of(alloc, "dynamic require"),
            Remark::RequireValue => Text::of(alloc, "require as a value"),
            Remark::NotFound(spec) => not_found(alloc, spec.as_str()),
            Remark::TooLarge => Text::of(alloc, "skipped: too large"),
            Remark::NotInProfile => Text::of(alloc, "skipped: not in the profile"),
        }
    }
}

fn not_found(alloc: Global, spec: &str) -> Result<Text, OutOfMemory>
    ensures { IfOk result (λ text. text ≡ notes.not_found spec.now) }
{
    let text = format!(in alloc; "not found: {spec}")?;
    Ok(Text::from_string(text))
}

impl Ranked for Noted {
    ghost order = { notes.noted_order };

    ghost total = { then_total (on_total (λ n. n.offset) nat_cmp_total) (on_total (λ n. notes.rank_of n.remark) nat_cmp_total) };

    fn rank(&self, other: &Noted) -> Ordering {
        self.offset
            .cmp(&other.offset)
            .then(self.remark.rank().cmp(&other.remark.rank()))
    }
}

/// What is noted of a module, which an installed package owns or none does, in order.
pub(crate) fn noted_of(alloc: Global, owned: bool, one: &Loaded) -> Result<Vec<Noted>, OutOfMemory>
    ensures { IfOk result (λ made. made.items ≡ ascending_of notes.noted_order (notes.all_noted owned one.now)) }
{
    let mut made = Vec::new(alloc);
    push_unowned(&mut made, owned)?;
    push_own(&mut made, one.summary.notes())?;
    push_missing(alloc, &mut made, one.missing.as_slice())?;
    push_skipped(&mut made, one.skipped, one.text.as_str().len())?;
    ascending(alloc, made)
}

// Adds that no installed package owns the module, unless one does.
fn push_unowned(made: &mut Vec<Noted>, owned: bool) -> Result<(), OutOfMemory>
    ensures { OnOk result (made.new.items ≡ made.old.items ++ notes.lock_noted owned) }
{
    if owned {
        return Ok(());
    }
    made.push(Noted {
        offset: 0,
        remark: Remark::NotInLockfile,
    })?;
    Ok(())
}

// Adds that a module is skipped whose text has so many bytes, if it is.
fn push_skipped(made: &mut Vec<Noted>, skipped: bool, length: usize) -> Result<(), OutOfMemory>
    ensures { OnOk result (made.new.items ≡ made.old.items ++ notes.skip_noted skipped length) }
{
    if !skipped {
        return Ok(());
    }
    made.push(Noted {
        offset: 0,
        remark: skipped_for(length),
    })?;
    Ok(())
}

// Why a module is skipped whose text has so many bytes.
fn skipped_for(length: usize) -> Remark
    ensures { result ≡ notes.skipped_for length }
{
    if length > TEXT_LIMIT {
        Remark::TooLarge
    } else {
        Remark::NotInProfile
    }
}

// Adds the notes of a text.
fn push_own(made: &mut Vec<Noted>, own: &[ModuleNote]) -> Result<(), OutOfMemory>
    ensures { OnOk result (made.new.items ≡ made.old.items ++ map notes.own_noted own.now) }
{
    for note in own {
        made.push(own_noted(note))?;
    }
    Ok(())
}

fn own_noted(note: &ModuleNote) -> Noted
    ensures { result ≡ notes.own_noted note.now }
{
    Noted {
        offset: note.offset,
        remark: match note.kind {
            NoteKind::DynamicRequire => Remark::DynamicRequire,
            NoteKind::RequireValue => Remark::RequireValue,
        },
    }
}

// Adds the requires that lead nowhere.
fn push_missing(
    alloc: Global,
    made: &mut Vec<Noted>,
    missing: &[Missing],
) -> Result<(), OutOfMemory>
    ensures { OnOk result (made.new.items ≡ made.old.items ++ map notes.missing_noted missing.now) }
{
    for require in missing {
        made.push(Noted {
            offset: require.offset,
            remark: Remark::NotFound(require.spec.copy(alloc)?),
        })?;
    }
    Ok(())
}
