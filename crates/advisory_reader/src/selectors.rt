//! Reading the members of an advisory that are texts and selectors.
ghost use Rattle.std.specs.Prelude.{◌≡◌, IfOk};
ghost use Rattle.std.specs.Option.{option_map};
ghost use Rattle.serde_json.specs.View.{items_view, view};
ghost use Rattle.advisory_reader.specs.Advisories.{functions_in, selector_of, selectors_of, some_text_in as some_text_of, text_in as text_of};

use crate::advisory::Selector;
use jam_base::{List, OutOfMemory, Text};
use serde_json::Value;
use std::alloc::Global;

/// The text of a member.
pub(crate) fn text_in<'v>(value: &'v Value, name: &str) -> Option<&'v str>
    ensures { option_map (λ text. text.now) result ≡ text_of name.now (view value.now) }
{
    match value.get(name) {
        Some(member) => member.as_str(),
        None => None,
    }
}

/// The text of a member, which must not be empty.
pub(crate) fn some_text_in<'v>(value: &'v Value, name: &str) -> Option<&'v str>
    ensures { option_map (λ text. text.now) result ≡ some_text_of name.now (view value.now) }
{
    match text_in(value, name) {
        Some(text) if !text.is_empty() => Some(text),
        _ => None,
    }
}

/// The selector that a value describes.
#[tactic(auto, unfolding(crate::specs::Advisories::selector_of))]
fn read_selector(alloc: Global, value: &Value) -> Result<Option<Selector>, OutOfMemory>
    ensures { IfOk result (λ found. found ≡ selector_of (view value.now)) }
{
    match (text_in(value, "file"), text_in(value, "name")) {
        (Some(file), Some(name)) => Ok(Some(Selector {
            file: Text::of(alloc, file)?,
            name: Text::of(alloc, name)?,
        })),
        _ => Ok(None),
    }
}

/// The selectors that all these values describe.
#[tactic(auto, unfolding(crate::specs::Advisories::selectors_of))]
fn read_selectors(alloc: Global, values: &[Value]) -> Result<Option<List<Selector>>, OutOfMemory>
    ensures { IfOk result (λ found. found ≡ selectors_of (items_view values.now)) }
{
    let mut selectors = Vec::new(alloc);
    for value in values {
        match read_selector(alloc, value)? {
            Some(selector) => selectors.push(selector)?,
            None => return Ok(None),
        }
    }
    Ok(Some(List::of(selectors)))
}

/// The selectors of the member `functions`.
pub(crate) fn read_functions(
    alloc: Global,
    value: &Value,
) -> Result<Option<List<Selector>>, OutOfMemory>
    ensures { IfOk result (λ found. found ≡ functions_in (view value.now)) }
{
    match value.get("functions") {
        Some(member) => match member.as_array() {
            Some(values) => read_selectors(alloc, values.as_slice()),
            None => Ok(None),
        },
        None => Ok(None),
    }
}
