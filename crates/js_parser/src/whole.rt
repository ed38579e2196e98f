//! A whole text as a tree.
ghost use Rattle.std.specs.Prelude.{◌≡◌, ◌+◌, ◌≤◌, length, drop, IfOk, IfErr, IfSome, nat_le, if◌then◌else◌};
ghost use Rattle.js_tree.specs.declared.tree.Tree.{Tree};
ghost use Rattle.js_tree.specs.Lexing.{start_of};
ghost use Rattle.js_tree.specs.Spells.{Spells, limit};
ghost use Rattle.js_tokens.specs.Pieces.{Gives, Refuses};
ghost use Rattle.js_tokens.specs.declared.fault.TokenFault.TheVariants as unread;
ghost use Rattle.js_parser.specs.Answers.{Begins, IsFaultOf, IsTree, NamesConstruct, word_of, TellsTooLarge, IsPlaced, IsAtCharacter, IsUnspelled};

use crate::fault::{Construct, ParseFault};
use crate::knot::stmts;
use crate::tall::Tall;
use jam_base::Steps;
use js_tokens::{Goal, Lexer, TokenFault, TokenReader};
use js_tree::Tree;
use std::alloc::Global;
use std::sync::ledger::Ledger;

/// How many bytes a text may have.
const LIMIT: usize = 8_388_608;

/// How tall a tree may be.
const DEPTH: u32 = 256;

// The tree that spells the text, which is within the limit.
fn tree(alloc: Global, text: &str) -> Result<Tree, TokenFault>
    requires { length text.now ≤ limit }
    ensures found { IfOk result (λ tree. Spells text.now tree) }
    ensures only { (tree : Tree) → Spells text.now tree → Gives result tree (Unit {0}) }
    ensures placed { IfErr result (Refuses (start_of text.now)) }
{
    let mut reader = TokenReader::new(text);
    let Tall {
        node: body,
        height: _,
    } = stmts(alloc, &mut reader, DEPTH)?;
    if reader.is_at_end() {
        Ok(Tree { body })
    } else {
        Err(reader.refusal())
    }
}

// The fault of the parser for a fault of reading.
fn fault_of(text: &str, fault: TokenFault) -> ParseFault
    requires few { length text.now ≤ limit }
    ensures fault { IsFaultOf fault result }
    ensures construct { NamesConstruct text.now result }
{
    match fault {
        TokenFault::OutOfMemory => ParseFault::OutOfMemory,
        TokenFault::Unexpected { at } => stop_at(text, at),
    }
}

// Reading stopped at the offset.
fn stop_at(text: &str, at: u32) -> ParseFault
    requires few { length text.now ≤ limit }
    ensures fault { IsFaultOf (unread.Unexpected at) result }
    ensures construct { NamesConstruct text.now result }
{
    match construct_at(text, at as usize) {
        Some(what) => ParseFault::Construct { at, what },
        None => ParseFault::NotInProfile { at },
    }
}

// The construct whose word is the next token from the offset on.
fn construct_at(text: &str, at: usize) -> Option<Construct>
    requires few { length text.now ≤ limit }
    ensures { IfSome result (Begins (drop at text.now)) }
{
    match text.get(at..) {
        Some(rest) => construct_in(rest),
        None => None,
    }
}

// The construct whose word is the token at the front of the text.
fn construct_in(text: &str) -> Option<Construct>
    requires few { length text.now ≤ limit }
    ensures { IfSome result (Begins text.now) }
{
    match Lexer::new(text).peek(Goal::Operator) {
        Ok(next) => construct_named(next.text, next.start),
        Err(_) => None,
    }
}

// The construct whose word the text is, at the front of all text alone.
fn construct_named(word: &str, start: u32) -> Option<Construct>
    ensures { IfSome result (λ what. (start ≡ 0) × (word.now ≡ word_of what)) }
{
    if start != 0 {
        return None;
    }
    if word == "eval" {
        Some(Construct::Eval)
    } else if word == "with" {
        Some(Construct::With)
    } else if word == "import" {
        Some(Construct::Import)
    } else if word == "export" {
        Some(Construct::Export)
    } else {
        None
    }
}

/// The tree that spells the text (ECMA-262, clauses 11 to 15, as far as the profile goes).
///
/// A text over 8,388,608 bytes is `TooLarge`, with its length. Where no tree spells the text, the answer is `NotInProfile`
/// with the offset in bytes at which reading stopped, or `Construct` where the next token there is a construct's word. `steps` rises by the length of a text within the
/// limit, whatever the answer, and by nothing otherwise.
pub fn parse<L: Ledger>(alloc: Global, text: &str, steps: &mut Steps<L>) -> Result<Tree, ParseFault>
    ensures found { IfOk result (λ tree. Spells text.now tree) }
    ensures only { (tree : Tree) → Spells text.now tree → IsTree result tree }
    ensures too_large { TellsTooLarge text.now result }
    ensures placed { IsPlaced text.now result }
    ensures at_character { IsAtCharacter text.now result }
    ensures unspelled { IsUnspelled text.now result }
    ensures construct { IfErr result (NamesConstruct text.now) }
    ensures cost { steps.new ≡ steps.old + (if nat_le (length text.now) limit then length text.now else 0) }
{
    if text.len() > LIMIT {
        return Err(ParseFault::TooLarge {
            length: text.len() as u64,
        });
    }
    steps.count(text.len() as u64);
    match tree(alloc, text) {
        Ok(tree) => Ok(tree),
        Err(fault) => Err(fault_of(text, fault)),
    }
}
