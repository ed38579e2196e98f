//! Strings and numbers as expressions.
ghost use Rattle.std.specs.Prelude.{◌≡◌, IfOk};
ghost use Rattle.std.specs.Option.{option_map};
ghost use Rattle.js_tree.specs.declared.tree.Expr.{out-Expr};
ghost use Rattle.js_scopes.specs.Calls as calls;
ghost use Rattle.js_scopes.specs.Functions as names;

use jam_base::{OutOfMemory, Text};
use js_tree::{Expr, Token, TokenClass, string_value};
use std::alloc::Global;

/// The value of the string that an expression is, where it has one.
pub fn string_in(alloc: Global, value: &Expr) -> Result<Option<Text>, OutOfMemory>
    ensures { IfOk result (λ v. v ≡ calls.string_in (out-Expr value.now)) }
{
    match value {
        Expr::Literal(token) => string_of(alloc, token),
        _ => Ok(None),
    }
}

// The value of a string, where the token is one and has one.
fn string_of(alloc: Global, token: &Token) -> Result<Option<Text>, OutOfMemory>
    ensures { IfOk result (λ v. v ≡ calls.string_of token.now) }
{
    match token.class {
        TokenClass::Str => string_value(alloc, token),
        _ => Ok(None),
    }
}

// The token of the string or the number that an expression is.
pub(crate) fn key_in(value: &Expr) -> Option<&Token>
    ensures { option_map (λ t. t.now) result ≡ names.key_in (out-Expr value.now) }
{
    match value {
        Expr::Literal(token) => key_token(token),
        _ => None,
    }
}

fn key_token(token: &Token) -> Option<&Token>
    ensures { option_map (λ t. t.now) result ≡ names.key_token token.now }
{
    match token.class {
        TokenClass::Str => Some(token),
        TokenClass::Number => Some(token),
        _ => None,
    }
}
