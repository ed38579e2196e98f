//! What a lockfile says.
use jam_base::{List, Text};

/// A package that a lockfile names.
#[derive(Debug, Drop)]
pub struct LockEntry {
    /// The path of its folder from the application folder; empty for the application itself.
    pub location: Text,
    /// Its name, as `@scope/name` where it has a scope.
    pub name: Text,
    /// Its version, where the lockfile gives one.
    pub version: Option<Text>,
}

/// What a lockfile says: its entries, ascending by the bytes of their locations.
#[derive(Debug, Drop)]
pub struct Lock {
    pub entries: List<LockEntry>,
}
