//! What is printed of a module.
ghost use Rattle.std.specs.Prelude.{◌≡◌, ◌<◌, ℕ, List, length, map, All, IfOk, Some, None, slice_get, unwrap_or};
ghost use Rattle.std.specs.Str.{IsCharBoundary};
ghost use Rattle.jam_app.specs.Graphs.{nowhere, shown_at};
ghost use Rattle.jam_app.specs.Printing.{spot_at, spot_of};

use jam_base::{OutOfMemory, Place, Text, place_of, places_of};
use js_scopes::FunctionInfo;
use report_text::{PathStep, Shown};
use std::alloc::Global;
use std::marker::Model;

/// What is printed of a module: its path, the text by which its places are told, and its functions.
#[derive(Drop)]
pub(crate) struct Printed {
    path: Text,
    text: Text,
    functions: Vec<Shown>,
}

impl Model for Printed {
    ghost use Rattle.std.specs.Prelude.{◌<◌, length};
    ghost use Rattle.jam_app.specs.Printing.{PrintedModule};

    ghost Value = { PrintedModule };

    ghost view = { λ m. record { path = m.path; text = m.text; functions = m.functions.items } };

    ghost invariant = { λ m. length m.text < 4294967295 };
}

impl Printed {
    /// The module at the path with this text and these functions.
    pub(crate) fn of(
        alloc: Global,
        path: &str,
        text: &str,
        functions: &[FunctionInfo],
    ) -> Result<Printed, OutOfMemory>
        requires { length text.now < 4294967295 }
        ensures path { IfOk result (λ made. made.path ≡ path.now) }
        ensures text { IfOk result (λ made. made.text ≡ text.now) }
        ensures functions { IfOk result (λ made. made.functions ≡ map (shown_at path.now text.now) functions.now) }
    {
        Ok(Printed {
            path: Text::of(alloc, path)?,
            text: Text::of(alloc, text)?,
            functions: shown_functions(alloc, path, text, functions)?,
        })
    }

    /// Its path.
    pub(crate) fn path(&self) -> &str
        ensures { result.now ≡ self.now.path }
    {
        self.path.as_str()
    }

    /// Where the offsets are; one past the end counts as the end, and one within a character as its front.
    pub(crate) fn places(&self, alloc: Global, offsets: &[u32]) -> Result<Vec<Place>, OutOfMemory>
        ensures { IfOk result (λ places. map spot_of places.items ≡ map (spot_at self.now.text) offsets.now) }
    {
        places_within(alloc, self.text.as_str(), offsets)
    }

    /// Where an offset is; one past the end counts as the end, and one within a character as its front.
    pub(crate) fn place(&self, offset: u32) -> Place
        ensures { spot_of result ≡ spot_at self.now.text offset }
    {
        place_within(self.text.as_str(), offset)
    }

    /// The function with this number.
    pub(crate) fn function(&self, alloc: Global, number: u32) -> Result<Shown, OutOfMemory>
        ensures { IfOk result (λ shown. shown ≡ unwrap_or (slice_get self.now.functions number) nowhere) }
    {
        match self.functions.as_slice().get(number as usize) {
            None => Ok(nowhere(alloc)),
            Some(shown) => copied(alloc, shown),
        }
    }
}

/// What is printed of a function that no edge can name.
pub(crate) fn nowhere(alloc: Global) -> Shown
    ensures { result ≡ nowhere }
{
    Shown {
        path: Text::from_string(String::new(alloc)),
        line: 1,
        column: 1,
        name: Text::from_string(String::new(alloc)),
    }
}

/// A call edge equal to this one.
pub(crate) fn copied_step(alloc: Global, step: &PathStep) -> Result<PathStep, OutOfMemory>
    ensures { IfOk result (λ made. made ≡ step.now) }
{
    Ok(PathStep {
        path: step.path.copy(alloc)?,
        line: step.line,
        column: step.column,
        callee: copied(alloc, &step.callee)?,
    })
}

fn copied(alloc: Global, shown: &Shown) -> Result<Shown, OutOfMemory>
    ensures { IfOk result (λ made. made ≡ shown.now) }
{
    Ok(Shown {
        path: shown.path.copy(alloc)?,
        line: shown.line,
        column: shown.column,
        name: shown.name.copy(alloc)?,
    })
}

// The functions of a module, as they are printed.
fn shown_functions(
    alloc: Global,
    path: &str,
    text: &str,
    functions: &[FunctionInfo],
) -> Result<Vec<Shown>, OutOfMemory>
    requires { length text.now < 4294967295 }
    ensures { IfOk result (λ made. made.items ≡ map (shown_at path.now text.now) functions.now) }
{
    let starts = starts_of(alloc, functions)?;
    let places = places_within(alloc, text, starts.as_slice())?;
    let places = places.as_slice();
    let mut made = Vec::new(alloc);
    for i in 0..functions.len() {
        made.push(shown_function(alloc, path, &places[i], &functions[i])?)?;
    }
    Ok(made)
}

// A function that starts at the place, as it is printed.
fn shown_function(
    alloc: Global,
    path: &str,
    place: &Place,
    function: &FunctionInfo,
) -> Result<Shown, OutOfMemory>
    ensures { (text : List ℕ) → spot_of place.now ≡ spot_at text function.now.start → IfOk result (λ shown. shown ≡ shown_at path.now text function.now) }
{
    Ok(Shown {
        path: Text::of(alloc, path)?,
        line: place.line,
        column: place.column,
        name: function.name.copy(alloc)?,
    })
}

// The offsets at which functions start.
fn starts_of(alloc: Global, functions: &[FunctionInfo]) -> Result<Vec<u32>, OutOfMemory>
    ensures { IfOk result (λ starts. starts.items ≡ map (λ f. f.start) functions.now) }
{
    Ok(
        functions
            .iter()
            .map(|function| function.start)
            .collect(alloc)?,
    )
}

// Where the offsets are; one past the end counts as the end, and one within a character as its front.
fn places_within(alloc: Global, text: &str, offsets: &[u32]) -> Result<Vec<Place>, OutOfMemory>
    requires { length text.now < 4294967295 }
    ensures { IfOk result (λ places. map spot_of places.items ≡ map (spot_at text.now) offsets.now) }
{
    let within = within(alloc, text, offsets)?;
    places_of(alloc, text, within.as_slice())
}

// Where an offset is; one past the end counts as the end, and one within a character as its front.
fn place_within(text: &str, offset: u32) -> Place
    requires { length text.now < 4294967295 }
    ensures { spot_of result ≡ spot_at text.now offset }
{
    place_of(text, text.floor_char_boundary(offset as usize) as u32)
}

// The offsets, where one past the end counts as the end, and one within a character as its front.
fn within(alloc: Global, text: &str, offsets: &[u32]) -> Result<Vec<u32>, OutOfMemory>
    requires { length text.now < 4294967295 }
    ensures spots { IfOk result (λ made. map (spot_at text.now) made.items ≡ map (spot_at text.now) offsets.now) }
    ensures below { IfOk result (λ made. All (λ offset. offset < 4294967295) made.items) }
    ensures boundaries { IfOk result (λ made. All (IsCharBoundary text.now) made.items) }
{
    let mut made = Vec::new(alloc);
    for offset in offsets {
        made.push(text.floor_char_boundary(*offset as usize) as u32)?;
    }
    Ok(made)
}
