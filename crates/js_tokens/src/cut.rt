//! The next token of a text, behind its trivia.
ghost use Rattle.std.specs.Prelude.{◌≡◌, ◌≤◌, ◌||◌, ◌==◌, ◌+◌, ℕ, length, take, drop};
ghost use Rattle.std.specs.Str.{IsCharBoundary};
ghost use Rattle.js_tree.specs.declared.token.TokenClass.{TokenClass};
ghost use Rattle.js_tree.specs.Lexing.{Place};
ghost use Rattle.js_tree.specs.Lexical.{is_fresh};
ghost use Rattle.js_tokens.specs.declared.front.Front.{Front};
ghost use Rattle.js_tokens.specs.Fronts.{StandsFor};
ghost use Rattle.js_tokens.specs.Places.{IsCutAt};

use crate::front::{Found, token_at};
use crate::goal::Goal;
use crate::reach::{has_line_end, trivia_len};

/// What stands behind the trivia of a place.
#[derive(Clone, Copy)]
pub struct Cut {
    /// How many bytes of trivia.
    pub gap: usize,
    /// Whether they have a line end.
    pub nl_before: bool,
    /// What stands behind them.
    pub found: Found,
}

// Whether no token stands before on its line.
fn is_fresh(at: u32, nl_before: bool) -> bool
    ensures { result ≡ (at == 0 || nl_before) }
{
    at == 0 || nl_before
}

/// What stands behind the trivia of the place.
pub fn cut_at(left: &str, at: u32, goal: Goal) -> Cut
    ensures found { IsCutAt goal (record { left = left.now; at = at }) result }
    ensures only { (c : TokenClass) (n : ℕ) → StandsFor goal (is_fresh at (take result.gap left.now)) c (drop result.gap left.now) n → result.found ≡ Found.Token (record { class = c; len = n }) }
    ensures begin { IsCharBoundary left.now result.gap }
    ensures end { (f : Front) → result.found ≡ Found.Token f → IsCharBoundary left.now (result.gap + f.len) }
{
    let gap = trivia_len(left, at);
    let (space, rest) = left.split_at(gap);
    let nl_before = has_line_end(space);
    let found = token_at(rest, goal, is_fresh(at, nl_before));
    Cut {
        gap,
        nl_before,
        found,
    }
}
