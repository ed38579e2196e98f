//! Refusals of the lockfile and the file of advisories, with the lines that say them.
ghost use Rattle.std.specs.Prelude.{◌≡◌, IfOk};
ghost use Rattle.jam_app.specs.Lines as lines;
ghost use Rattle.jam_app.specs.Lines.{IsLockName, TellsRefusal};
ghost use Rattle.jam_app.specs.Stops.{Refuses, StopsForAdvisories, StopsForLock};
ghost use Rattle.lock_reader.specs.declared.fault.LockFault.TheVariants as lock_fault;

use crate::answers::line::Line;
use crate::{Refusal, Stop};
use advisory_reader::{AdvisoryFault, Field};
use jam_base::{OutOfMemory, Text};
use lock_reader::LockFault;
use report_text::escaped;
use std::alloc::Global;

/// That there is no lockfile.
pub(crate) fn no_lock() -> Stop
    ensures { Refuses Refusal.NoLock result }
{
    Stop::Refused(Refusal::NoLock, Line::Fixed("jam: no lockfile\n"))
}

/// That there is no file of advisories.
pub(crate) fn no_advisories() -> Stop
    ensures { Refuses Refusal.NoAdvisories result }
{
    Stop::Refused(
        Refusal::NoAdvisories,
        Line::Fixed("jam: no advisory file\n"),
    )
}

/// What is wrong with the lockfile, which has this name. Want of memory is no refusal.
pub(crate) fn wrong_lock(alloc: Global, name: &str, fault: LockFault) -> Stop
    requires { IsLockName name.now }
    ensures { StopsForLock fault result }
{
    match fault {
        LockFault::NotJson => not_json(alloc, name),
        LockFault::Shape { place } => wrong_shape(alloc, name, place),
        LockFault::Version { found } => other_version(alloc, name, found),
        LockFault::OutOfMemory => Stop::OutOfMemory,
    }
}

fn not_json(alloc: Global, name: &str) -> Stop
    requires { IsLockName name.now }
    ensures { Refuses (Refusal.Lock lock_fault.NotJson) result }
{
    let line = Line::of(not_json_line(alloc, name));
    Stop::Refused(Refusal::Lock(LockFault::NotJson), line)
}

fn wrong_shape(alloc: Global, name: &str, place: Text) -> Stop
    requires { IsLockName name.now }
    ensures { Refuses (Refusal.Lock (lock_fault.Shape place)) result }
{
    let line = Line::of(shape_line(alloc, name, place.as_str()));
    Stop::Refused(Refusal::Lock(LockFault::Shape { place }), line)
}

fn other_version(alloc: Global, name: &str, found: u64) -> Stop
    requires { IsLockName name.now }
    ensures { Refuses (Refusal.Lock (lock_fault.Version found)) result }
{
    let line = Line::of(version_line(alloc, name, found));
    Stop::Refused(Refusal::Lock(LockFault::Version { found }), line)
}

fn not_json_line(alloc: Global, name: &str) -> Result<Text, OutOfMemory>
    ensures { IfOk result (λ made. made ≡ lines.not_json_line name.now) }
{
    let line = format!(in alloc; "jam: {name}: not JSON\n")?;
    Ok(Text::from_string(line))
}

fn shape_line(alloc: Global, name: &str, place: &str) -> Result<Text, OutOfMemory>
    ensures { IfOk result (λ made. made ≡ lines.shape_line name.now place.now) }
{
    let place = escaped(alloc, place)?;
    let line = shape_text(alloc, name, place.as_str())?;
    Ok(line)
}

// The same line for a place as it is printed.
fn shape_text(alloc: Global, name: &str, printed: &str) -> Result<Text, OutOfMemory>
    ensures { IfOk result (λ made. made ≡ lines.shape_text name.now printed.now) }
{
    let line = format!(in alloc; "jam: {name}: wrong shape at {printed}\n")?;
    Ok(Text::from_string(line))
}

fn version_line(alloc: Global, name: &str, found: u64) -> Result<Text, OutOfMemory>
    ensures { IfOk result (λ made. made ≡ lines.version_line name.now found) }
{
    let line = format!(in alloc; "jam: {name}: lockfileVersion {found}\n")?;
    Ok(Text::from_string(line))
}

/// What is wrong with the file of advisories. Want of memory is no refusal.
pub(crate) fn wrong_advisories(alloc: Global, fault: AdvisoryFault) -> Stop
    ensures { StopsForAdvisories fault result }
{
    match fault {
        AdvisoryFault::NotJson => advised(fault, Line::Fixed("jam: advisories: not JSON\n")),
        AdvisoryFault::Shape => advised(fault, Line::Fixed("jam: advisories: wrong shape\n")),
        AdvisoryFault::Field { index, field } => {
            advised(fault, Line::of(field_line(alloc, index, field)))
        }
        AdvisoryFault::Range { index, at } => advised(
            fault,
            Line::of(range_line(alloc, index, at)),
        ),
        AdvisoryFault::OutOfMemory => Stop::OutOfMemory,
    }
}

// The refusal for this fault, with the line that says it.
fn advised(fault: AdvisoryFault, line: Line) -> Stop
    requires { TellsRefusal (Refusal.Advisory fault) line }
    ensures { Refuses (Refusal.Advisory fault) result }
{
    Stop::Refused(Refusal::Advisory(fault), line)
}

fn field_name(field: Field) -> &'static str
    ensures { result.now ≡ lines.field_name field }
{
    match field {
        Field::Id => "id",
        Field::Package => "package",
        Field::Range => "range",
        Field::Functions => "functions",
    }
}

fn field_line(alloc: Global, index: u32, field: Field) -> Result<Text, OutOfMemory>
    ensures { IfOk result (λ made. made ≡ lines.field_line index field) }
{
    let name = field_name(field);
    let line = format!(in alloc; "jam: advisory {index}: {name}\n")?;
    Ok(Text::from_string(line))
}

fn range_line(alloc: Global, index: u32, at: u32) -> Result<Text, OutOfMemory>
    ensures { IfOk result (λ made. made ≡ lines.range_line index at) }
{
    let line = format!(in alloc; "jam: advisory {index}: range at {at}\n")?;
    Ok(Text::from_string(line))
}
