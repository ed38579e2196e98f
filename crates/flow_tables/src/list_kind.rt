//! The lists of a text, as texts.
use crate::lists::{flows_text, functions_text, lists_of, names_text, other_lists, sites_text};
use crate::texts::{constraints_of, tree_of};
use js_scopes::{bind, functions, sites};
use std::alloc::Global;
use std::test::Fail;

/// Which lists of a text are told.
#[derive(Clone, Copy)]
pub(crate) enum ListKind {
    /// Its functions.
    Functions,
    /// Its call sites.
    Sites,
    /// Its requires and notes.
    Requires,
    /// Its flows.
    Flows,
    /// What its names mean, at the offsets that are asked for.
    Names,
    /// All lists but the last, each behind its name.
    All,
}

// The list of the text, or all; for names, `want` has the offsets.
pub(crate) fn list_text(
    alloc: Global,
    list: ListKind,
    text: &str,
    want: &str,
) -> Result<String, Fail> {
    let tree = tree_of(alloc, text)?;
    Ok(match list {
        ListKind::Functions => functions_text(alloc, functions(alloc, &tree)?.as_slice())?,
        ListKind::Sites => sites_text(alloc, sites(alloc, &tree)?.as_slice())?,
        ListKind::Requires => other_lists(alloc, &constraints_of(alloc, &tree)?)?,
        ListKind::Flows => flows_text(alloc, constraints_of(alloc, &tree)?.flows())?,
        ListKind::Names => names_text(alloc, &bind(alloc, &tree)?, want)?,
        ListKind::All => lists_of(alloc, &constraints_of(alloc, &tree)?)?,
    })
}
