//! What a report says.
use crate::shown::{PathStep, Shown};
use jam_base::{List, Text};

/// A function that an advisory names and the application can reach, in an installed package, with the
/// calls that lead to it from the body of the entry.
#[derive(Debug, Drop)]
pub struct Alarm {
    pub id: Text,
    pub package: Text,
    pub version: Text,
    pub function: Shown,
    pub path: List<PathStep>,
}

/// A place in a text; line and column count from 1, columns in characters.
#[derive(Clone, Copy, Debug, Drop)]
pub struct LineColumn {
    pub line: u32,
    pub column: u32,
}

/// What was noted of a module, at a place, or of the location of an installed package, without one.
#[derive(Debug, Drop)]
pub struct Note {
    pub path: Text,
    pub place: Option<LineColumn>,
    pub text: Text,
}

/// How many modules and functions the application has, how many of the functions are reachable, and how
/// many call edges, alarms and notes there are.
#[derive(Clone, Copy, Debug, Drop)]
pub struct Counts {
    pub modules: u64,
    pub functions: u64,
    pub reachable: u64,
    pub edges: u64,
    pub alarms: u64,
    pub notes: u64,
}

/// The alarms and the notes in the order in which they are printed, and the counts.
#[derive(Debug, Drop)]
pub struct Report {
    pub alarms: List<Alarm>,
    pub notes: List<Note>,
    pub counts: Counts,
}
