//! Why a text isn't read.
use thiserror::Error;

/// What the profile leaves out by name.
#[derive(Clone, Copy, Debug, PartialEq, Eq)]
pub enum Construct {
    /// A direct call of `eval`.
    Eval,
    /// The statement `with`.
    With,
    /// `import`
    Import,
    /// `export`
    Export,
}

/// Why a text isn't read.
#[derive(Clone, Copy, Debug, PartialEq, Eq, Error)]
pub enum ParseFault {
    /// The text is over the limit of 8,388,608 bytes.
    #[error("{length} bytes are over the limit of a module")]
    TooLarge {
        /// How many bytes it has.
        length: u64,
    },
    /// Reading stopped at a construct that the profile leaves out.
    #[error("a construct outside the profile at {at}")]
    Construct {
        /// The offset in bytes, from 0, of its word.
        at: u32,
        /// Which one.
        what: Construct,
    },
    /// No tree spells the text.
    #[error("not in the profile at {at}")]
    NotInProfile {
        /// The offset in bytes, from 0, at which reading stopped: there a token begins, or none can, or the text ends.
        at: u32,
    },
    /// A growth found no memory.
    #[error("out of memory")]
    OutOfMemory,
}
