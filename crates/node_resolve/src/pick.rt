//! What a value of `exports` gives.
ghost use Rattle.std.specs.Prelude.{◌≡◌, ◌||◌, drop, map as each, IfOk, Some};
ghost use Rattle.std.specs.Option.{option_map};
ghost use Rattle.serde_json.specs.View.{items_view, view};
ghost use Rattle.jam_base.specs.Path.{parts};
ghost use Rattle.node_resolve.specs.Exports as exports;

use crate::names::parts_of;
use crate::shape::{begins, is_among};
use jam_base::{OutOfMemory, Text};
use serde_json::Value;
use std::alloc::{AllocError, Global};

/// What a value of `exports` gives.
#[derive(Drop)]
pub(crate) enum Pick {
    /// This path, from the package's folder.
    Path(Text),
    /// Nothing: another condition or item may give something.
    Nothing,
    /// Nothing, and no other condition is asked.
    Refused,
}

/// What stands between the stars of a text.
pub(crate) fn between_stars(alloc: Global, text: &str) -> Result<Vec<&str>, AllocError>
    ensures { IfOk result (λ v. each (λ p. p.now) v.items ≡ exports.between_stars text.now) }
{
    text.split('*').collect(alloc)
}

// Whether one of the parts is `.`, `..` or `node_modules`.
fn has_odd_part(parts: &[&str]) -> bool
    ensures { result ≡ exports.has_odd_part (each (λ p. p.now) parts.now) }
{
    for part in parts {
        if is_among(&[".", "..", "node_modules"], part) {
            return true;
        }
    }
    false
}

// Whether a part of a text behind the first is `.`, `..` or `node_modules`.
fn is_odd_text(alloc: Global, text: &str) -> Result<bool, OutOfMemory>
    ensures { IfOk result (λ odd. odd ≡ exports.has_odd_part (drop 1 (parts text.now))) }
{
    let parts = parts_of(alloc, text)?;
    match parts.as_slice() {
        [] => Ok(false),
        [_, later @ ..] => Ok(has_odd_part(later)),
    }
}

// Whether a part of what the `*` stands for is `.`, `..` or `node_modules`.
fn is_odd_star(alloc: Global, star: Option<&str>) -> Result<bool, OutOfMemory>
    ensures { IfOk result (λ odd. odd ≡ exports.is_odd_star (option_map (λ s. s.now) star.entry)) }
{
    let Some(star) = star else {
        return Ok(false);
    };
    let parts = parts_of(alloc, star)?;
    Ok(has_odd_part(parts.as_slice()))
}

// The text with what the `*` stands for in place of each `*`.
fn replaced(alloc: Global, text: &str, star: Option<&str>) -> Result<Text, OutOfMemory>
    ensures { IfOk result (λ made. made ≡ exports.replaced (option_map (λ s. s.now) star.entry) text.now) }
{
    match star {
        None => Text::of(alloc, text),
        Some(star) => with_star(alloc, text, star),
    }
}

// The text with another in place of each `*`.
fn with_star(alloc: Global, text: &str, star: &str) -> Result<Text, OutOfMemory>
    ensures { IfOk result (λ made. made ≡ exports.replaced (Some star.now) text.now) }
{
    let pieces = between_stars(alloc, text)?;
    Ok(Text::from_string(pieces.as_slice().join(alloc, star)?))
}

// What a text gives.
#[tactic(auto, unfolding(crate::specs::Exports::text_pick))]
fn text_pick(alloc: Global, text: &str, star: Option<&str>) -> Result<Pick, OutOfMemory>
    ensures { IfOk result (λ pick. pick ≡ exports.text_pick (option_map (λ s. s.now) star.entry) text.now) }
{
    if !begins(text.as_bytes(), b"./") {
        return Ok(Pick::Refused);
    }
    if is_odd_text(alloc, text)? {
        return Ok(Pick::Refused);
    }
    if is_odd_star(alloc, star)? {
        return Ok(Pick::Refused);
    }
    Ok(Pick::Path(replaced(alloc, text, star)?))
}

// The conditions that hold for a require, in the order in which they are tried.
fn conditions() -> &'static [&'static str]
    ensures { each (λ c. c.now) result.now ≡ exports.conditions }
{
    &["node", "require", "default"]
}

// The pick, unless it is nothing.
fn decided(pick: Pick) -> Option<Pick>
    ensures { result ≡ exports.decided pick }
{
    match pick {
        Pick::Nothing => None,
        Pick::Path(text) => Some(Pick::Path(text)),
        Pick::Refused => Some(Pick::Refused),
    }
}

/// What a value gives, with what the `*` of its key stands for: a text a path; an object what the first
/// of its members `node`, `require` and `default` gives that is there and doesn't give nothing; an
/// array what its first item gives that gives a path.
#[cycle(picks)]
pub(crate) fn pick_of(alloc: Global, value: &Value, star: Option<&str>) -> Result<Pick, OutOfMemory>
    ensures { IfOk result (λ pick. pick ≡ exports.pick_of (option_map (λ s. s.now) star.entry) (view value.now)) }
{
    if let Some(text) = value.as_str() {
        return text_pick(alloc, text, star);
    }
    if let Some(items) = value.as_array() {
        return items_pick(alloc, items.as_slice(), star);
    }
    if value.is_object() {
        return conditions_pick(alloc, value, conditions(), star);
    }
    Ok(Pick::Refused)
}

// What a member gives, where it is there and decides.
#[cycle(picks)]
fn condition_pick(
    alloc: Global,
    value: &Value,
    name: &str,
    star: Option<&str>,
) -> Result<Option<Pick>, OutOfMemory>
    ensures { IfOk result (λ found. found ≡ exports.condition_pick (option_map (λ s. s.now) star.entry) (view value.now) name.now) }
{
    match value.get(name) {
        None => Ok(None),
        Some(member) => {
            let pick = pick_of(alloc, member, star)?;
            Ok(decided(pick))
        }
    }
}

// What the first of these members gives that is there and decides.
#[cycle(picks)]
fn conditions_pick(
    alloc: Global,
    value: &Value,
    conditions: &[&str],
    star: Option<&str>,
) -> Result<Pick, OutOfMemory>
    ensures { IfOk result (λ pick. pick ≡ exports.conditions_pick (option_map (λ s. s.now) star.entry) (view value.now) (each (λ c. c.now) conditions.now)) }
{
    for name in conditions {
        if let Some(pick) = condition_pick(alloc, value, name, star)? {
            return Ok(pick);
        }
    }
    Ok(Pick::Nothing)
}

// The path that a pick is.
fn path_in(pick: Pick) -> Option<Text>
    ensures { result ≡ exports.path_in pick }
{
    match pick {
        Pick::Path(text) => Some(text),
        Pick::Nothing | Pick::Refused => None,
    }
}

// Whether one was refused before or this one is.
fn is_refused(before: bool, pick: &Pick) -> bool
    ensures { result ≡ (before || exports.is_refused pick.now) }
{
    before || matches!(pick, Pick::Refused)
}

// Nothing, or refused.
fn without_path(refused: bool) -> Pick
    ensures { result ≡ exports.without_path refused }
{
    if refused {
        Pick::Refused
    } else {
        Pick::Nothing
    }
}

// The first path that an item gives, else nothing where there are items and each gives nothing.
#[cycle(picks)]
fn items_pick(alloc: Global, items: &[Value], star: Option<&str>) -> Result<Pick, OutOfMemory>
    ensures { IfOk result (λ pick. pick ≡ exports.list_pick (exports.item_picks (option_map (λ s. s.now) star.entry) (items_view items.now))) }
{
    let mut refused = items.is_empty();
    for item in items {
        let pick = pick_of(alloc, item, star)?;
        refused = is_refused(refused, &pick);
        if let Some(text) = path_in(pick) {
            return Ok(Pick::Path(text));
        }
    }
    Ok(without_path(refused))
}
