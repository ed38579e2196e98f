//! The values of strings.
ghost use Rattle.std.specs.Prelude.{◌≡◌, ◌++◌, ◌<◌, ◌==◌, IfOk, OnOk, IfSome, option_map};
ghost use Rattle.std.specs.Char.Escape.{encode_utf16};
ghost use Rattle.std.specs.List.{list_any};
ghost use Rattle.std.specs.Str.{chars};
ghost use Rattle.js_tree.specs.Lexical.Value.{between, value_of, value_in, units_in, units_of, text_of};

use crate::escape::{ValuePart, value_may_end, value_step};
use crate::token::Token;
use jam_base::{OutOfMemory, Text};
use std::alloc::Global;

/// The value of a string token (ECMA-262, 11.8.4). `None` comes where a surrogate in it has no
/// partner, so that it is no text, and where `\` stands before 1 to 9 or `\0` before a digit.
pub fn string_value(alloc: Global, token: &Token) -> Result<Option<Text>, OutOfMemory>
    ensures { IfOk result (λ value. value ≡ value_of token.now.text) }
{
    let inner = without_quotes(token.text.as_str());
    if has_escape(inner) {
        escaped_value(alloc, inner)
    } else {
        let text = Text::of(alloc, inner)?;
        Ok(Some(text))
    }
}

// The text without its first and its last character.
fn without_quotes(text: &str) -> &str
    ensures { chars result.now ≡ between (chars text.now) }
{
    let mut left = text.chars();
    left.next();
    left.next_back();
    left.as_str()
}

// Whether a `\` stands in the text.
fn has_escape(text: &str) -> bool
    ensures { result ≡ list_any (λ c. c == 92) (chars text.now) }
{
    text.chars().any(|c| c == '\\')
}

fn escaped_value(alloc: Global, inner: &str) -> Result<Option<Text>, OutOfMemory>
    ensures { IfOk result (λ value. value ≡ value_in (chars inner.now)) }
{
    match units_in(alloc, inner)? {
        Some(units) => text_of(alloc, units.as_slice()),
        None => Ok(None),
    }
}

// The code units that the characters between the quotes stand for.
fn units_in(alloc: Global, inner: &str) -> Result<Option<Vec<u16>>, OutOfMemory>
    ensures { IfOk result (λ units. option_map (λ u. u.items) units ≡ units_in (chars inner.now)) }
{
    let mut units = Vec::new(alloc);
    let mut part = ValuePart::Plain;
    for c in inner.chars() {
        let step = value_step(part, c);
        push_units(step.code, &mut units)?;
        part = step.part;
    }
    if value_may_end(part) {
        Ok(Some(units))
    } else {
        Ok(None)
    }
}

// Adds the code units of a code point, if one is given.
fn push_units(code: Option<u32>, units: &mut Vec<u16>) -> Result<(), OutOfMemory>
    requires { IfSome code (λ c. c < 0x110000) }
    ensures { OnOk result (units.new.items ≡ units.old.items ++ units_of code) }
{
    match code {
        Some(code) => push_code(code, units),
        None => Ok(()),
    }
}

fn push_code(code: u32, units: &mut Vec<u16>) -> Result<(), OutOfMemory>
    requires { code < 0x110000 }
    ensures { OnOk result (units.new.items ≡ units.old.items ++ encode_utf16 code) }
{
    if code < 0x10000 {
        units.push(code as u16)?;
        return Ok(());
    }
    units.push((0xd800 + (code - 0x10000) / 0x400) as u16)?;
    units.push((0xdc00 + (code - 0x10000) % 0x400) as u16)?;
    Ok(())
}

// The text that the code units are.
fn text_of(alloc: Global, units: &[u16]) -> Result<Option<Text>, OutOfMemory>
    ensures { IfOk result (λ text. text ≡ text_of units.now) }
{
    match String::from_utf16(alloc, units)? {
        Ok(text) => Ok(Some(Text::from_string(text))),
        Err(_) => Ok(None),
    }
}
