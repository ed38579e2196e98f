//! What an advisory says.
use jam_base::{List, Text};
use npm_range::Range;

/// Names functions of a package.
#[derive(Debug, Drop)]
pub struct Selector {
    /// The file in the package's folder, or `*` for all.
    pub file: Text,
    /// The function's name, or `*` for all.
    pub name: Text,
}

/// An advisory: its functions are vulnerable in the versions of the package for which its range holds.
#[derive(Drop)]
pub struct Advisory {
    /// Its identifier, which isn't empty.
    pub id: Text,
    /// The name of the package, which isn't empty.
    pub package: Text,
    /// The versions.
    pub range: Range,
    /// The functions.
    pub functions: List<Selector>,
}
