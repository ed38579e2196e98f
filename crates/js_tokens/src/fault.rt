//! Why no token was read.
use jam_base::OutOfMemory;
use std::alloc::AllocError;
use thiserror::Error;

/// What doesn't close.
#[derive(Clone, Copy, Debug, PartialEq, Eq)]
pub enum Unclosed {
    /// A string, before its line's or the text's end.
    String,
    /// A template, before the text's end.
    Template,
    /// A regular expression, before its line's or the text's end.
    Regex,
    /// A comment `/*`, before the text's end.
    Comment,
}

/// Why no token stands next.
#[derive(Clone, Copy, Debug, PartialEq, Eq, Error)]
pub enum LexFault {
    /// No token begins there.
    #[error("no token begins at {at}")]
    Char {
        /// The offset in bytes, from 0, behind trivia.
        at: u32,
    },
    /// What begins there doesn't close.
    #[error("what begins at {at} doesn't close")]
    Unclosed {
        /// The offset in bytes, from 0, behind trivia.
        at: u32,
        /// What begins there.
        what: Unclosed,
    },
}

/// Why no token was taken.
#[derive(Clone, Copy, Debug, PartialEq, Eq, Error)]
pub enum TakeFault {
    /// None stands next.
    #[error("{0}")]
    Lex(LexFault),
    /// A growth found no memory.
    #[error("out of memory")]
    OutOfMemory,
}

impl From<OutOfMemory> for TakeFault {
    ghost use Rattle.std.specs.Prelude.{◌≡◌};
    ghost use Rattle.js_tokens.specs.declared.fault.TakeFault.TheVariants as fault;

    ghost from_gives = { λ _ e. e ≡ fault.OutOfMemory };

    fn from(_: OutOfMemory) -> TakeFault {
        TakeFault::OutOfMemory
    }
}

/// Why a reader of tokens stopped.
#[derive(Clone, Copy, Debug, PartialEq, Eq, Error)]
pub enum TokenFault {
    /// What stands next isn't read there.
    #[error("unexpected token at {at}")]
    Unexpected {
        /// The offset in bytes, from 0, where the next token begins or would begin.
        at: u32,
    },
    /// A growth found no memory.
    #[error("out of memory")]
    OutOfMemory,
}

impl From<OutOfMemory> for TokenFault {
    ghost use Rattle.std.specs.Prelude.{◌≡◌};
    ghost use Rattle.js_tokens.specs.declared.fault.TokenFault.TheVariants as fault;

    ghost from_gives = { λ _ e. e ≡ fault.OutOfMemory };

    fn from(_: OutOfMemory) -> TokenFault {
        TokenFault::OutOfMemory
    }
}

impl From<AllocError> for TokenFault {
    ghost use Rattle.std.specs.Prelude.{◌≡◌};
    ghost use Rattle.js_tokens.specs.declared.fault.TokenFault.TheVariants as fault;

    ghost from_gives = { λ _ e. e ≡ fault.OutOfMemory };

    fn from(_: AllocError) -> TokenFault {
        TokenFault::OutOfMemory
    }
}
