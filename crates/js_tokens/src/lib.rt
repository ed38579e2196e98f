//! The tokens of a text, one by one (ECMA-262, clause 11).
#![tactic(auto)]

mod character;
mod cut;
mod fault;
mod front;
mod goal;
mod kinds;
mod lexer;
mod mark;
mod quoted;
mod reach;
mod reader;
mod steps;
mod words;

pub use fault::{LexFault, TakeFault, TokenFault, Unclosed};
pub use goal::Goal;
pub use lexer::{Lexer, Raw};
pub use reader::TokenReader;
