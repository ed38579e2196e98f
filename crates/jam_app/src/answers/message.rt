//! Refusals with the lines that say them.
ghost use Rattle.std.specs.Prelude.{◌≡◌, IfOk};
ghost use Rattle.js_parser.specs.Answers as answers;
ghost use Rattle.jam_app.specs.Lines as lines;
ghost use Rattle.jam_app.specs.Stops.{Refuses};

use crate::answers::line::Line;
use crate::loading::text::TEXT_LIMIT;
use crate::{Refusal, Stop};
use jam_base::{ModulePath, OutOfMemory, Place, Text};
use js_parser::Construct;
use report_text::escaped;
use std::alloc::Global;

/// That the operand names no file that can be an entry.
pub(crate) fn no_entry() -> Stop
    ensures { Refuses Refusal.NoEntry result }
{
    Stop::Refused(Refusal::NoEntry, Line::Fixed("jam: no entry\n"))
}

/// That a module is one too many.
pub(crate) fn too_many(alloc: Global, modules: u32, bytes: u64) -> Stop
    ensures { Refuses (Refusal.TooMany modules bytes) result }
{
    let line = Line::of(too_many_line(alloc, modules, bytes));
    Stop::Refused(Refusal::TooMany { modules, bytes }, line)
}

fn too_many_line(alloc: Global, modules: u32, bytes: u64) -> Result<Text, OutOfMemory>
    ensures { IfOk result (λ made. made ≡ lines.too_many_line modules bytes) }
{
    let line = format!(in alloc; "jam: too many: {modules} modules, {bytes} bytes\n")?;
    Ok(Text::from_string(line))
}

/// That the text of a module is too large.
pub(crate) fn too_large(alloc: Global, path: ModulePath, length: u64) -> Stop
    ensures { Refuses (Refusal.TooLarge path length) result }
{
    let line = Line::of(too_large_line(alloc, path.as_str(), length));
    Stop::Refused(Refusal::TooLarge { path, length }, line)
}

fn too_large_line(alloc: Global, path: &str, length: u64) -> Result<Text, OutOfMemory>
    ensures { IfOk result (λ made. made ≡ lines.too_large_line path.now length) }
{
    let path = escaped(alloc, path)?;
    let line = too_large_text(alloc, path.as_str(), length)?;
    Ok(line)
}

// The same line for a path as it is printed.
fn too_large_text(alloc: Global, printed: &str, length: u64) -> Result<Text, OutOfMemory>
    ensures { IfOk result (λ made. made ≡ lines.too_large_text printed.now length) }
{
    let line = format!(in alloc; "jam: {printed}: {length} bytes, more than {TEXT_LIMIT}\n")?;
    Ok(Text::from_string(line))
}

/// That the modules are too wide for their composition.
pub(crate) fn too_wide(alloc: Global, size: u128) -> Stop
    ensures { Refuses (Refusal.TooWide size) result }
{
    let line = Line::of(too_wide_line(alloc, size));
    Stop::Refused(Refusal::TooWide { size }, line)
}

fn too_wide_line(alloc: Global, size: u128) -> Result<Text, OutOfMemory>
    ensures { IfOk result (λ made. made ≡ lines.too_wide_line size) }
{
    let line = format!(in alloc; "jam: too wide: {size}\n")?;
    Ok(Text::from_string(line))
}

/// That no tree spells the text of a module, which reading left at the place, at the word of a construct.
pub(crate) fn at_construct(alloc: Global, path: ModulePath, place: Place, what: Construct) -> Stop
    ensures { Refuses (Refusal.Construct path place.offset what) result }
{
    let line = Line::of(construct_line(alloc, path.as_str(), place.line, place.column, what));
    let at = place.offset;
    Stop::Refused(Refusal::Construct { path, at, what }, line)
}

fn construct_line(
    alloc: Global,
    path: &str,
    line: u32,
    column: u32,
    what: Construct,
) -> Result<Text, OutOfMemory>
    ensures { IfOk result (λ made. made ≡ lines.construct_line path.now line column what) }
{
    let place = place_text(alloc, path, line, column)?;
    let place = place.as_str();
    let word = word_of(what);
    let line = format!(in alloc; "jam: {place}: {word}\n")?;
    Ok(Text::from_string(line))
}

// The word of a construct.
fn word_of(what: Construct) -> &'static str
    ensures { result.now ≡ answers.word_of what }
{
    match what {
        Construct::Eval => "eval",
        Construct::With => "with",
        Construct::Import => "import",
        Construct::Export => "export",
    }
}

/// That no tree spells the text of a module, which reading left at the place.
pub(crate) fn not_in_profile(alloc: Global, path: ModulePath, place: Place) -> Stop
    ensures { Refuses (Refusal.NotInProfile path place.offset) result }
{
    let line = Line::of(not_in_profile_line(alloc, path.as_str(), place.line, place.column));
    let at = place.offset;
    Stop::Refused(Refusal::NotInProfile { path, at }, line)
}

fn not_in_profile_line(
    alloc: Global,
    path: &str,
    line: u32,
    column: u32,
) -> Result<Text, OutOfMemory>
    ensures { IfOk result (λ made. made ≡ lines.not_in_profile_line path.now line column) }
{
    let place = place_text(alloc, path, line, column)?;
    let place = place.as_str();
    let line = format!(in alloc; "jam: {place}: not in the profile\n")?;
    Ok(Text::from_string(line))
}

fn place_text(alloc: Global, path: &str, line: u32, column: u32) -> Result<Text, OutOfMemory>
    ensures { IfOk result (λ made. made ≡ lines.place_text path.now line column) }
{
    let path = escaped(alloc, path)?;
    let path = path.as_str();
    let place = format!(in alloc; "{path}:{line}:{column}")?;
    Ok(Text::from_string(place))
}
