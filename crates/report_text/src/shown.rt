//! What a line of the output names.
use jam_base::Text;

/// A function as it is printed: the path of its module in the application folder, the place of its
/// first token (line and column count from 1, columns in characters) and its name.
#[derive(Debug, Drop)]
pub struct Shown {
    pub path: Text,
    pub line: u32,
    pub column: u32,
    pub name: Text,
}

/// A call edge as it is printed: the module and the place of the call, and the function called.
#[derive(Debug, Drop)]
pub struct PathStep {
    pub path: Text,
    pub line: u32,
    pub column: u32,
    pub callee: Shown,
}
