//! A module that is loaded.
use flow_fold::Summary;
use jam_base::{ModulePath, Text};
use js_tree::Tree;

/// The modules of an application, which go by their paths, and the path of its entry.
#[derive(Debug, Drop)]
pub(crate) struct Application {
    pub(crate) entry: ModulePath,
    pub(crate) modules: Vec<Loaded>,
}

/// A loaded module: its path, the text of its file, its tree and whether that is the empty one of a
/// module that is skipped, what is kept of what the tree says of its values, and, by their offsets, where
/// its requires lead and which of them lead nowhere.
#[derive(Debug, Drop)]
pub(crate) struct Loaded {
    pub(crate) path: ModulePath,
    pub(crate) text: Text,
    pub(crate) tree: Tree,
    pub(crate) skipped: bool,
    pub(crate) summary: Summary,
    pub(crate) targets: Vec<Led>,
    pub(crate) missing: Vec<Missing>,
}

/// Where a require leads: the offset of its `(` in bytes, and the path of the module that is its target.
#[derive(Debug, Drop)]
pub(crate) struct Led {
    pub(crate) offset: u32,
    pub(crate) path: ModulePath,
}

/// A require that leads nowhere: the offset of its `(` in bytes, and its text.
#[derive(Debug, Drop)]
pub(crate) struct Missing {
    pub(crate) offset: u32,
    pub(crate) spec: Text,
}
