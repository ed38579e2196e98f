//! Which member of `exports` is for a path inside the package, and what it gives.
ghost use Rattle.std.specs.Prelude.{◌≡◌, IfOk, Some};
ghost use Rattle.std.specs.Option.{option_map};
ghost use Rattle.serde_json.specs.View.{members_view, view};
ghost use Rattle.node_resolve.specs.Exports as spec;
ghost use Rattle.node_resolve.specs.Views.{seen_match, seen_value};

use crate::pick::{Pick, between_stars, pick_of};
use crate::shape::{begins, ends, is};
use jam_base::OutOfMemory;
use serde_json::{Map, Value};
use std::alloc::Global;

// The text without this front.
fn without_front<'t>(front: &str, text: &'t str) -> Option<&'t str>
    ensures { option_map (λ t. t.now) result ≡ spec.without_front front.now text.now }
{
    text.strip_prefix(front)
}

// The text without this end.
fn without_end<'t>(end: &str, text: &'t str) -> Option<&'t str>
    ensures { option_map (λ t. t.now) result ≡ spec.without_end end.now text.now }
{
    text.strip_suffix(end)
}

// What stands between a front and an end of a text, where that isn't empty.
fn between<'t>(front: &str, end: &str, text: &'t str) -> Option<&'t str>
    ensures { option_map (λ t. t.now) result ≡ spec.between front.now end.now text.now }
{
    let rest = without_front(front, text)?;
    match without_end(end, rest) {
        Some(star) if !star.is_empty() => Some(star),
        _ => None,
    }
}

/// A member whose key is a pattern of a path.
#[derive(Drop)]
struct Match<'v, 't> {
    /// How many bytes stand before the `*` of its key.
    front: usize,
    /// How many bytes its key has.
    size: usize,
    /// Its value.
    target: &'v Value,
    /// What the `*` stands for.
    star: &'t str,
}

/// A value of `exports`, and what a `*` in it stands for.
#[derive(Drop)]
struct Valued<'v, 't> {
    target: &'v Value,
    star: Option<&'t str>,
}

// The member with this key and value as a pattern of a path.
#[tactic(auto, unfolding(crate::specs::Exports::match_of))]
fn match_of<'v, 't>(
    alloc: Global,
    key: &str,
    target: &'v Value,
    path: &'t str,
) -> Result<Option<Match<'v, 't>>, OutOfMemory>
    ensures { IfOk result (λ found. option_map seen_match found ≡ spec.match_of key.now (view target.now) path.now) }
{
    let pieces = between_stars(alloc, key)?;
    match pieces.as_slice() {
        [front, end] => match between(front, end, path) {
            None => Ok(None),
            Some(star) => Ok(Some(Match {
                front: front.len(),
                size: key.len(),
                target,
                star,
            })),
        },
        _ => Ok(None),
    }
}

// Whether the first is the better match: the longer front, or equal ones and the longer key.
fn is_better(a: &Match<'_, '_>, b: &Match<'_, '_>) -> bool
    ensures { result ≡ spec.is_better (seen_match a.now) (seen_match b.now) }
{
    b.front < a.front || (b.front == a.front && b.size < a.size)
}

// The better of two that may be there.
fn better<'v, 't>(one: Option<Match<'v, 't>>, other: Option<Match<'v, 't>>) -> Option<Match<'v, 't>>
    ensures { option_map seen_match result ≡ spec.better (option_map seen_match one.entry) (option_map seen_match other.entry) }
{
    let Some(a) = one else {
        return other;
    };
    let Some(b) = other else {
        return Some(a);
    };
    if is_better(&b, &a) { Some(b) } else { Some(a) }
}

// The best of the members that are patterns of a path.
#[tactic(auto, unfolding(crate::specs::Exports::best_match))]
fn best_match<'v, 't>(
    alloc: Global,
    members: &'v Map<String, Value>,
    path: &'t str,
) -> Result<Option<Match<'v, 't>>, OutOfMemory>
    ensures { IfOk result (λ found. option_map seen_match found ≡ spec.best_match (members_view members.now.entries) path.now) }
{
    let mut best = None;
    for (key, value) in members.iter() {
        best = better(best, match_of(alloc, key.as_str(), value, path)?);
    }
    Ok(best)
}

// Whether a text has a `*`.
fn has_star(alloc: Global, text: &str) -> Result<bool, OutOfMemory>
    ensures { IfOk result (λ has. has ≡ spec.has_star text.now) }
{
    let pieces = between_stars(alloc, text)?;
    Ok(pieces.as_slice().len() > 1)
}

// The value of the member with this very key, where the key has no `*` and doesn't end with a slash.
#[tactic(auto, unfolding(crate::specs::Exports::exact_member))]
fn exact_member<'v, 't>(
    alloc: Global,
    exports: &'v Value,
    path: &str,
) -> Result<Option<Valued<'v, 't>>, OutOfMemory>
    ensures { IfOk result (λ found. option_map seen_value found ≡ spec.exact_member (view exports.now) path.now) }
{
    if has_star(alloc, path)? {
        return Ok(None);
    }
    if ends(path.as_bytes(), b"/") {
        return Ok(None);
    }
    match exports.get(path) {
        Some(target) => Ok(Some(Valued { target, star: None })),
        None => Ok(None),
    }
}

// A match as a value.
fn matched<'v, 't>(found: Option<Match<'v, 't>>) -> Option<Valued<'v, 't>>
    ensures { option_map seen_value result ≡ option_map (λ m. (m.target, Some m.star)) (option_map seen_match found.entry) }
{
    match found {
        None => None,
        Some(found) => Some(Valued {
            target: found.target,
            star: Some(found.star),
        }),
    }
}

// The value for a path among members whose keys are paths: the path's own, else that of the best
// pattern.
#[tactic(auto, unfolding(crate::specs::Exports::member_for))]
fn member_for<'v, 't>(
    alloc: Global,
    members: &'v Map<String, Value>,
    exports: &'v Value,
    path: &'t str,
) -> Result<Option<Valued<'v, 't>>, OutOfMemory>
    ensures { IfOk result (λ found. option_map seen_value found ≡ spec.member_for (members_view members.now.entries) (view exports.now) path.now) }
{
    if let Some(found) = exact_member(alloc, exports, path)? {
        return Ok(Some(found));
    }
    Ok(matched(best_match(alloc, members, path)?))
}

// The exports themselves, for the package itself alone.
fn whole_for<'v, 't>(exports: &'v Value, path: &str) -> Option<Valued<'v, 't>>
    ensures { option_map seen_value result ≡ spec.whole_for (view exports.now) path.now }
{
    if is(path.as_bytes(), b".") {
        Some(Valued {
            target: exports,
            star: None,
        })
    } else {
        None
    }
}

// Whether a key is a path and no condition.
fn is_path_key(key: &str) -> bool
    ensures { result ≡ spec.is_path_key key.now }
{
    begins(key.as_bytes(), b".")
}

// Whether all keys are paths.
fn all_paths(members: &Map<String, Value>) -> bool
    ensures { result ≡ spec.all_paths (members_view members.now.entries) }
{
    for (key, _) in members.iter() {
        if !is_path_key(key.as_str()) {
            return false;
        }
    }
    true
}

// Whether no key is a path.
fn no_paths(members: &Map<String, Value>) -> bool
    ensures { result ≡ spec.no_paths (members_view members.now.entries) }
{
    for (key, _) in members.iter() {
        if is_path_key(key.as_str()) {
            return false;
        }
    }
    true
}

// The value for a path inside the package, and what a `*` in it stands for.
#[tactic(auto, unfolding(crate::specs::Exports::value_for))]
fn value_for<'v, 't>(
    alloc: Global,
    exports: &'v Value,
    path: &'t str,
) -> Result<Option<Valued<'v, 't>>, OutOfMemory>
    ensures { IfOk result (λ found. option_map seen_value found ≡ spec.value_for (view exports.now) path.now) }
{
    let Some(members) = exports.as_object() else {
        return Ok(whole_for(exports, path));
    };
    if all_paths(members) {
        return member_for(alloc, members, exports, path);
    }
    if no_paths(members) {
        return Ok(whole_for(exports, path));
    }
    Ok(None)
}

/// What the exports of a package give for a path inside it, which is `.` or begins `./`.
#[tactic(auto, unfolding(crate::specs::Exports::export_pick))]
pub(crate) fn export_pick(alloc: Global, exports: &Value, path: &str) -> Result<Pick, OutOfMemory>
    ensures { IfOk result (λ pick. pick ≡ spec.export_pick (view exports.now) path.now) }
{
    match value_for(alloc, exports, path)? {
        None => Ok(Pick::Refused),
        Some(found) => pick_of(alloc, found.target, found.star),
    }
}
