//! The tokens of a text, one by one, with the next one held: a test of it costs no scan.
ghost use Rattle.std.specs.Prelude.{◌≡◌, ◌≤◌, ◌<◌, ◌↔◌, ◌+◌, ◌-◌, Bool, IsTrue, true, IfOk, IfSome, IfNone, OnErr, length};
ghost use Rattle.js_tree.specs.declared.token.Token.{Token};
ghost use Rattle.js_tree.specs.declared.token.TokenClass.TheVariants as class;
ghost use Rattle.js_tree.specs.declared.token_kind.TokenKind.{TokenKind};
ghost use Rattle.js_tree.specs.Lexical.{Next, IsTrivia};
ghost use Rattle.js_tree.specs.Lexing.{start_of, ahead};
ghost use Rattle.js_tree.specs.Pieces.{one, kind as kind_of_token};
ghost use Rattle.js_tree.specs.Spells.{limit};
ghost use Rattle.js_tokens.specs.Ahead.{offset_of, reads, IsNextKind, IsNextLine, IsNextFor, NoneFor, IsHeld};
ghost use Rattle.js_tokens.specs.Pieces.{OnlyRead, Any, Anywhere, Moves, Refuses, IsNextStart};

use crate::fault::{LexFault, TokenFault};
use crate::goal::Goal;
use crate::kinds::kind_of;
use crate::lexer::{Ahead, Lexer, Raw};
use jam_base::Text;
use js_tree::{Token, TokenClass, TokenKind};
use std::alloc::Global;
use std::marker::Model;

// The next token as the goal Operator reads it, and its kind; where none stands next the kind is `End`, and the token is
// empty and stands where it would begin.
#[derive(Clone, Copy)]
struct Held<'t> {
    kind: TokenKind,
    next: Ahead<'t>,
}

/// A place in a text, with the token that stands next.
#[derive(Drop)]
pub struct TokenReader<'t> {
    lexer: Lexer<'t>,
    held: Held<'t>,
}

impl<'t> Model for TokenReader<'t> {
    ghost use Rattle.js_tree.specs.Lexing.{Place};
    ghost use Rattle.js_tokens.specs.Ahead.{IsHeld};

    ghost Value = { Place };

    ghost view = { λ r. r.lexer };

    ghost invariant = { λ r. IsHeld r.lexer r.held };
}

// Nothing, at the offset.
fn nothing<'t>(text: &'t str, start: u32) -> Held<'t>
    ensures kind { result.kind ≡ TokenKind.End }
    ensures start { result.next.raw.start ≡ start }
{
    let raw = Raw {
        class: TokenClass::End,
        text,
        start,
        nl_before: false,
    };
    Held {
        kind: TokenKind::End,
        next: Ahead { raw, left: text },
    }
}

// The offset of a fault.
fn start_of_fault(fault: LexFault) -> u32
    ensures { result ≡ offset_of fault }
{
    match fault {
        LexFault::Char { at } => at,
        LexFault::Unclosed { at, .. } => at,
    }
}

// The next token at the place.
fn held_at<'t>(lexer: &Lexer<'t>) -> Held<'t>
    ensures { IsHeld lexer.now result }
{
    match lexer.ahead(Goal::Operator) {
        Ok(next) => {
            let kind = kind_of(next.raw.class, next.raw.text.as_bytes());
            Held { kind, next }
        }
        Err(fault) => nothing(lexer.left, start_of_fault(fault)),
    }
}

impl<'t> TokenReader<'t> {
    /// The start of the text.
    pub fn new(text: &'t str) -> TokenReader<'t>
        requires { length text.now ≤ limit }
        ensures { result ≡ start_of text.now }
    {
        let lexer = Lexer::new(text);
        let held = held_at(&lexer);
        TokenReader { lexer, held }
    }

    /// The kind of the next token as the goal `Operator` reads it, and `End` where none stands next.
    pub fn kind(&self) -> TokenKind
        ensures { IsNextKind self.now result }
    {
        self.held.kind
    }

    /// Whether a line end stands before the next token.
    pub fn nl_before(&self) -> bool
        ensures { IsNextLine self.now result }
    {
        self.held.next.raw.nl_before
    }

    /// Whether only trivia is left.
    pub fn is_at_end(&self) -> bool
        ensures { IsTrue result ↔ IsTrivia self.now.at self.now.left }
    {
        ends_at(&self.lexer, self.held.next.raw.start)
    }

    /// The offset in bytes where the next token begins, or would begin.
    pub fn start(&self) -> u32
        ensures { IsNextStart self.now result }
    {
        self.held.next.raw.start
    }

    /// The refusal of the next token.
    pub fn refusal(&self) -> TokenFault
        ensures { Refuses self.now result }
    {
        TokenFault::Unexpected { at: self.start() }
    }

    // The next token of the goal, and the text behind it.
    fn next_for(&self, goal: Goal) -> Option<Ahead<'t>>
        ensures found { IfSome result (IsNextFor goal self.now) }
        ensures none { IfNone result (NoneFor goal self.now) }
    {
        match goal {
            Goal::Operator => self.next_held(),
            _ => next_cut(&self.lexer, goal),
        }
    }

    // The token that is held.
    fn next_held(&self) -> Option<Ahead<'t>>
        ensures found { IfSome result (IsNextFor Goal.Operator self.now) }
        ensures none { IfNone result (NoneFor Goal.Operator self.now) }
    {
        match self.held.kind {
            TokenKind::End => None,
            _ => Some(self.held.next),
        }
    }

    /// The next token of the goal, past which the reader moves; where it fails, the reader stands where it stood.
    pub fn take(&mut self, alloc: Global, goal: Goal) -> Result<Token, TokenFault>
        ensures found { IfOk result (λ t. Next self.old t self.new × (reads goal (kind_of_token t) ≡ true)) }
        ensures only { (test : TokenKind → Bool) → ((k : TokenKind) → test k ≡ true → reads goal k ≡ true) → OnlyRead (one test) (Any Token) (Anywhere Token) self.old self.new result }
        ensures moves { Moves self.old self.new result }
        ensures shorter { IfOk result (λ _. length self.new.left < length self.old.left) }
        ensures stays { OnErr result (self.new ≡ self.old) }
    {
        let Some(next) = self.next_for(goal) else {
            return Err(self.refusal());
        };
        let text = Text::of(alloc, next.raw.text)?;
        let lexer = behind(&self.lexer, goal, next);
        let held = held_at(&lexer);
        self.lexer = lexer;
        self.held = held;
        Ok(Token {
            text,
            start: next.raw.start,
            class: next.raw.class,
            nl_before: next.raw.nl_before,
        })
    }
}

// Whether only trivia is left, where the next token would begin at the offset.
fn ends_at<'t>(lexer: &Lexer<'t>, start: u32) -> bool
    requires { IsNextStart lexer.now start }
    ensures { IsTrue result ↔ IsTrivia lexer.now.at lexer.now.left }
{
    (start - lexer.at) as usize == lexer.left.len()
}

// The place behind the next token of the goal.
fn behind<'t>(lexer: &Lexer<'t>, goal: Goal, next: Ahead<'t>) -> Lexer<'t>
    requires { IsNextFor goal lexer.now next }
    ensures { result ≡ ahead lexer.now (next.entry.raw.start - lexer.now.at + length next.entry.raw.text.now) }
{
    prove!(lexer.at <= next.raw.start);
    Lexer {
        left: next.left,
        at: next.raw.start + next.raw.text.len() as u32,
    }
}

// The next token of the goal at the place, and the text behind it.
fn next_cut<'t>(lexer: &Lexer<'t>, goal: Goal) -> Option<Ahead<'t>>
    ensures found { IfSome result (IsNextFor goal lexer.now) }
    ensures none { IfNone result (NoneFor goal lexer.now) }
{
    match lexer.ahead(goal) {
        Ok(next) => some_token(next),
        Err(_) => None,
    }
}

// The token, unless the text ends.
fn some_token<'t>(next: Ahead<'t>) -> Option<Ahead<'t>>
    ensures some { IfSome result (λ same. (same ≡ next.entry) × (next.entry.raw.class ≡ class.End → ⊥)) }
    ensures none { IfNone result (next.entry.raw.class ≡ class.End) }
{
    match next.raw.class {
        TokenClass::End => None,
        _ => Some(next),
    }
}
