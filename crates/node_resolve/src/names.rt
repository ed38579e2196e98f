//! The name of a package at the front of a bare text, and what stands behind it.
ghost use Rattle.std.specs.Prelude.{◌≡◌, ◌≤◌, ◌∷◌, ◌&&◌, map as each, IfOk, take, drop, length as size, string_bytes, codes, nat_eq, not, nat_le};
ghost use Rattle.std.specs.List.{join_by, starts_with as begins_with};
ghost use Rattle.jam_base.specs.Path.{parts, name_length as name_length_of};
ghost use Rattle.node_resolve.specs.Shapes as shapes;

use crate::shape::{begins, is_among};
use jam_base::OutOfMemory;
use std::alloc::{AllocError, Global};
use std::marker::Model;

/// The parts of a text between its slashes.
pub(crate) fn parts_of(alloc: Global, text: &str) -> Result<Vec<&str>, AllocError>
    ensures { IfOk result (λ v. each (λ p. p.now) v.items ≡ parts text.now) }
{
    text.split('/').collect(alloc)
}

// How many parts the name of a package has that begins here.
fn name_length(parts: &[&str]) -> usize
    ensures length { result ≡ name_length_of (each (λ p. p.now) parts.now) }
    ensures few { result ≤ 2 }
{
    match parts.first() {
        Some(part) if begins(part.as_bytes(), b"@") => 2,
        _ => 1,
    }
}

// The first parts, or all where there are fewer.
fn front<'p, 't>(parts: &'p [&'t str], count: usize) -> &'p [&'t str]
    ensures { result.now ≡ take count parts.now }
{
    if count < parts.len() {
        &parts[..count]
    } else {
        parts
    }
}

// What stands behind the first parts.
fn behind<'p, 't>(parts: &'p [&'t str], count: usize) -> &'p [&'t str]
    ensures { result.now ≡ drop count parts.now }
{
    if count < parts.len() {
        &parts[count..]
    } else {
        &[]
    }
}

/// A bare text, with the name of its package and the path inside it.
#[derive(Drop)]
pub(crate) struct Bare<'t> {
    text: &'t str,
    name: String,
    subpath: String,
    is_valid: bool,
}

impl<'t> Model for Bare<'t> {
    ghost use Rattle.std.specs.Prelude.{string_bytes};
    ghost use Rattle.node_resolve.specs.Shapes as specs;

    ghost Value = { specs.Bare };

    ghost view = { λ b. record { text = b.text.now; name = string_bytes b.name; subpath = string_bytes b.subpath; is_valid = b.is_valid } };
}

impl<'t> Bare<'t> {
    /// What a text is as a bare one.
    #[tactic(auto, unfolding(crate::specs::Shapes::bare_of))]
    pub(crate) fn of(alloc: Global, text: &'t str) -> Result<Bare<'t>, OutOfMemory>
        ensures { IfOk result (λ made. made ≡ shapes.bare_of text.now) }
    {
        let parts = parts_of(alloc, text)?;
        let length = name_length(parts.as_slice());
        let own = front(parts.as_slice(), length);
        let name = joined(alloc, own)?;
        let subpath = below(alloc, behind(parts.as_slice(), length))?;
        let is_valid = is_valid(length, parts.as_slice(), own, name.as_str());
        Ok(Bare {
            text,
            name,
            subpath,
            is_valid,
        })
    }

    /// The text itself.
    pub(crate) fn text(&self) -> &'t str
        ensures { result.now ≡ self.now.text }
    {
        self.text
    }

    /// The name of its package: its first part, or its first two where it begins with `@`.
    pub(crate) fn name(&self) -> &str
        ensures { result.now ≡ self.now.name }
    {
        self.name.as_str()
    }

    /// The path inside the package: `.` and what stands behind the name.
    pub(crate) fn subpath(&self) -> &str
        ensures { result.now ≡ self.now.subpath }
    {
        self.subpath.as_str()
    }

    /// Whether the name can be that of a package.
    pub(crate) fn is_valid(&self) -> bool
        ensures { result ≡ self.now.is_valid }
    {
        self.is_valid
    }
}

// Whether these parts of all can be the name of a package, which is this text.
fn is_valid(length: usize, parts: &[&str], own: &[&str], name: &str) -> bool
    ensures { result ≡ (nat_le length (size parts.now) && not (shapes.has_empty (each (λ p. p.now) own.now)) && not (begins_with nat_eq name.now (codes "."))) }
{
    length <= parts.len() && !is_among(own, "") && !begins(name.as_bytes(), b".")
}

// The parts with a slash between each two.
fn joined(alloc: Global, parts: &[&str]) -> Result<String, OutOfMemory>
    ensures { IfOk result (λ text. string_bytes text ≡ join_by (λ p. p) (codes "/") (each (λ p. p.now) parts.now)) }
{
    Ok(parts.join(alloc, "/")?)
}

// `.` and the parts behind it, with a slash in front of each.
fn below(alloc: Global, parts: &[&str]) -> Result<String, OutOfMemory>
    ensures { IfOk result (λ text. string_bytes text ≡ join_by (λ p. p) (codes "/") (codes "." ∷ each (λ p. p.now) parts.now)) }
{
    let mut all = vec![in alloc; "."]?;
    all.extend_from_slice(parts)?;
    joined(alloc, all.as_slice())
}
