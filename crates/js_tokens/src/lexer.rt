//! The tokens of a text, one by one.
ghost use Rattle.std.specs.Prelude.{◌≡◌, ◌≤◌, ◌<◌, ℕ, IfOk, IfErr, OnErr, IsOkAnd, length, drop, ◌+◌, ◌-◌};
ghost use Rattle.js_tree.specs.Lexing.{start_of};
ghost use Rattle.js_tree.specs.Spells.{limit};
ghost use Rattle.js_tree.specs.declared.token.TokenClass.{TokenClass};
ghost use Rattle.js_tokens.specs.Places.{IsRaw, IsFault, IsCutFor, IsOfCut, IsTaken, IsNextUnlessEnd, IsTakeFault, TakesCut};

use crate::cut::cut_at;
use crate::fault::{LexFault, TakeFault};
use crate::front::Found;
use crate::goal::Goal;
use jam_base::Text;
use js_tree::{Token, TokenClass};
use std::alloc::Global;
use std::marker::Model;

/// A token as it stands in a text.
#[derive(Clone, Copy, Debug)]
pub struct Raw<'t> {
    /// Its class.
    pub class: TokenClass,
    /// Its characters.
    pub text: &'t str,
    /// The offset of its first byte in the text, from 0.
    pub start: u32,
    /// Whether the trivia before it has a line end.
    pub nl_before: bool,
}

/// A place in a text: what is left of it, and the offset in bytes.
#[derive(Drop)]
pub struct Lexer<'t> {
    pub(crate) left: &'t str,
    pub(crate) at: u32,
}

impl<'t> Model for Lexer<'t> {
    ghost use Rattle.std.specs.Prelude.{◌+◌, ◌<◌, ◌^◌, length};
    ghost use Rattle.js_tree.specs.Lexing.{Place};

    ghost Value = { Place };

    ghost view = { λ l. record { left = l.left.now; at = l.at } };

    ghost invariant = { λ l. l.at + length l.left.now < 2 ^ 32 };
}

impl<'t> Lexer<'t> {
    /// The start of the text.
    pub fn new(text: &'t str) -> Lexer<'t>
        requires { length text.now ≤ limit }
        ensures { result ≡ start_of text.now }
    {
        Lexer { left: text, at: 0 }
    }

    /// The next token of the goal; at the end of the text one of the class `End`. It takes no memory.
    pub fn peek(&self, goal: Goal) -> Result<Raw<'t>, LexFault>
        ensures found { IfOk result (IsRaw goal self.now) }
        ensures fault { IfErr result (IsFault goal self.now) }
        ensures only { (gap : ℕ) (c : TokenClass) (n : ℕ) → IsCutFor goal self.now gap c n → IsOkAnd result (IsOfCut self.now gap c n) }
    {
        match self.ahead(goal) {
            Ok(next) => Ok(next.raw),
            Err(fault) => Err(fault),
        }
    }

    /// The same token, past which the lexer moves; where it fails, the lexer stands where it stood.
    pub fn take(&mut self, alloc: Global, goal: Goal) -> Result<Token, TakeFault>
        ensures found { IfOk result (λ token. IsTaken goal self.old token self.new) }
        ensures next { IfOk result (λ token. IsNextUnlessEnd self.old token self.new) }
        ensures fault { IfErr result (IsTakeFault goal self.old) }
        ensures only { (gap : ℕ) (c : TokenClass) (n : ℕ) → IsCutFor goal self.old gap c n → TakesCut self.old gap c n result }
        ensures stays { OnErr result (self.new ≡ self.old) }
    {
        let next = match self.ahead(goal) {
            Ok(next) => next,
            Err(fault) => return Err(TakeFault::Lex(fault)),
        };
        let text = Text::of(alloc, next.raw.text)?;
        self.left = next.left;
        self.at = next.raw.start + next.raw.text.len() as u32;
        Ok(Token {
            text,
            start: next.raw.start,
            class: next.raw.class,
            nl_before: next.raw.nl_before,
        })
    }

    // The same token, and the text behind it.
    pub(crate) fn ahead(&self, goal: Goal) -> Result<Ahead<'t>, LexFault>
        ensures found { IfOk result (λ next. IsRaw goal self.now next.raw × (next.left.now ≡ drop (next.raw.start - self.now.at + length next.raw.text.now) self.now.left)) }
        ensures fault { IfErr result (IsFault goal self.now) }
        ensures only { (gap : ℕ) (c : TokenClass) (n : ℕ) → IsCutFor goal self.now gap c n → IsOkAnd result (λ next. IsOfCut self.now gap c n next.raw) }
    {
        let cut = cut_at(self.left, self.at, goal);
        let start = self.at + cut.gap as u32;
        match cut.found {
            Found::Token(front) => {
                let text = &self.left[cut.gap..cut.gap + front.len];
                let left = &self.left[cut.gap + front.len..];
                let raw = Raw {
                    class: front.class,
                    text,
                    start,
                    nl_before: cut.nl_before,
                };
                Ok(Ahead { raw, left })
            }
            Found::Open(what) => Err(LexFault::Unclosed { at: start, what }),
            Found::Nothing => {
                if cut.gap < self.left.len() {
                    return Err(LexFault::Char { at: start });
                }
                let text = &self.left[cut.gap..];
                let raw = Raw {
                    class: TokenClass::End,
                    text,
                    start,
                    nl_before: cut.nl_before,
                };
                Ok(Ahead { raw, left: text })
            }
        }
    }
}

// A token and the text behind it.
#[derive(Clone, Copy)]
pub(crate) struct Ahead<'t> {
    pub(crate) raw: Raw<'t>,
    pub(crate) left: &'t str,
}
