//! Where a character leads a reader of a token (ECMA-262, clause 11).
ghost use Rattle.std.specs.Prelude.{◌≡◌, ◌<◌};
ghost use Rattle.js_tree.specs.Lexical.Trivia as trivia;
ghost use Rattle.std.specs.Char.{digit_value};
ghost use Rattle.js_tree.specs.Lexical.Number as number;

use crate::character::{is_digit, is_line_end, is_space};
use js_tree::{NumberPart, TriviaPart};

fn between(c: char) -> TriviaPart
    ensures { result ≡ trivia.between c }
{
    if is_space(c) {
        TriviaPart::Between
    } else if is_line_end(c) {
        TriviaPart::Between
    } else if c == '/' {
        TriviaPart::Slash
    } else {
        TriviaPart::Broken
    }
}

/// Where a character leads in trivia.
pub fn trivia_next(part: TriviaPart, c: char) -> TriviaPart
    ensures { result ≡ trivia.next part c }
{
    match part {
        TriviaPart::Front => {
            if c == '#' {
                TriviaPart::Hash
            } else {
                between(c)
            }
        }
        TriviaPart::Hash => {
            if c == '!' {
                TriviaPart::Line
            } else {
                TriviaPart::Broken
            }
        }
        TriviaPart::Between => between(c),
        TriviaPart::Slash => {
            if c == '/' {
                TriviaPart::Line
            } else if c == '*' {
                TriviaPart::Block
            } else {
                TriviaPart::Broken
            }
        }
        TriviaPart::Line => {
            if is_line_end(c) {
                TriviaPart::Between
            } else {
                TriviaPart::Line
            }
        }
        TriviaPart::Block => {
            if c == '*' {
                TriviaPart::Star
            } else {
                TriviaPart::Block
            }
        }
        TriviaPart::Star => {
            if c == '/' {
                TriviaPart::Between
            } else if c == '*' {
                TriviaPart::Star
            } else {
                TriviaPart::Block
            }
        }
        TriviaPart::Broken => TriviaPart::Broken,
    }
}

/// Whether trivia may end there.
pub fn trivia_may_end(part: TriviaPart) -> bool
    ensures { result ≡ trivia.may_end part }
{
    match part {
        TriviaPart::Front => true,
        TriviaPart::Between => true,
        TriviaPart::Line => true,
        _ => false,
    }
}

fn is_e(c: u8) -> bool
    ensures { result ≡ number.is_e c }
{
    c == b'e' || c == b'E'
}

/// The value of a digit or letter, from 0 to 35, or 36.
pub fn digit_value(c: u8) -> u8
    ensures { result ≡ digit_value c }
{
    if c < 48 {
        36
    } else if c < 58 {
        c - 48
    } else if c < 65 {
        36
    } else if c < 91 {
        c - 55
    } else if c < 97 {
        36
    } else if c < 123 {
        c - 87
    } else {
        36
    }
}

// Behind a `0`.
fn behind_zero(c: u8) -> NumberPart
    ensures { result ≡ number.behind_zero c }
{
    if is_digit(c) {
        NumberPart::Leading
    } else if c == b'.' {
        NumberPart::Fraction
    } else if is_e(c) {
        NumberPart::Exponent
    } else {
        behind_letter(c)
    }
}

// Behind a `0` and a byte that may be the letter of a base.
fn behind_letter(c: u8) -> NumberPart
    ensures { result ≡ number.behind_letter c }
{
    if c == b'x' {
        NumberPart::Prefix(16)
    } else if c == b'X' {
        NumberPart::Prefix(16)
    } else if c == b'o' {
        NumberPart::Prefix(8)
    } else if c == b'O' {
        NumberPart::Prefix(8)
    } else if c == b'b' {
        NumberPart::Prefix(2)
    } else if c == b'B' {
        NumberPart::Prefix(2)
    } else {
        NumberPart::Broken
    }
}

// In digits of the radix, or before them.
fn based(c: u8, radix: u8) -> NumberPart
    ensures { result ≡ number.based radix c }
{
    if digit_value(c) < 16 {
        if digit_value(c) < radix {
            NumberPart::Digits(radix)
        } else {
            NumberPart::Broken
        }
    } else {
        NumberPart::Broken
    }
}

// At the front of a number.
fn number_front(c: u8) -> NumberPart
    ensures { result ≡ number.next NumberPart.Front c }
{
    if c == b'0' {
        NumberPart::Zero
    } else if is_digit(c) {
        NumberPart::Whole
    } else if c == b'.' {
        NumberPart::Point
    } else {
        NumberPart::Broken
    }
}

// In a decimal's integer part.
fn behind_whole(c: u8) -> NumberPart
    ensures { result ≡ number.next NumberPart.Whole c }
{
    if is_digit(c) {
        NumberPart::Whole
    } else if c == b'.' {
        NumberPart::Fraction
    } else if is_e(c) {
        NumberPart::Exponent
    } else {
        NumberPart::Broken
    }
}

// In a decimal's fraction.
fn behind_fraction(c: u8) -> NumberPart
    ensures { result ≡ number.next NumberPart.Fraction c }
{
    if is_digit(c) {
        NumberPart::Fraction
    } else if is_e(c) {
        NumberPart::Exponent
    } else {
        NumberPart::Broken
    }
}

// Behind the `e` of an exponent.
fn behind_e(c: u8) -> NumberPart
    ensures { result ≡ number.next NumberPart.Exponent c }
{
    if is_digit(c) {
        NumberPart::Power
    } else if c == b'+' {
        NumberPart::Sign
    } else if c == b'-' {
        NumberPart::Sign
    } else {
        NumberPart::Broken
    }
}

/// Where a byte leads in a number.
pub fn number_next(part: NumberPart, c: u8) -> NumberPart
    ensures { result ≡ number.next part c }
{
    match part {
        NumberPart::Front => number_front(c),
        NumberPart::Zero => behind_zero(c),
        NumberPart::Leading => {
            if is_digit(c) {
                NumberPart::Leading
            } else {
                NumberPart::Broken
            }
        }
        NumberPart::Whole => behind_whole(c),
        NumberPart::Point => {
            if is_digit(c) {
                NumberPart::Fraction
            } else {
                NumberPart::Broken
            }
        }
        NumberPart::Fraction => behind_fraction(c),
        NumberPart::Exponent => behind_e(c),
        NumberPart::Sign => {
            if is_digit(c) {
                NumberPart::Power
            } else {
                NumberPart::Broken
            }
        }
        NumberPart::Power => {
            if is_digit(c) {
                NumberPart::Power
            } else {
                NumberPart::Broken
            }
        }
        NumberPart::Prefix(radix) => based(c, radix),
        NumberPart::Digits(radix) => based(c, radix),
        NumberPart::Broken => NumberPart::Broken,
    }
}

/// Whether a number may end there.
pub fn number_may_end(part: NumberPart) -> bool
    ensures { result ≡ number.may_end part }
{
    match part {
        NumberPart::Zero => true,
        NumberPart::Leading => true,
        NumberPart::Whole => true,
        NumberPart::Fraction => true,
        NumberPart::Power => true,
        NumberPart::Digits(_) => true,
        _ => false,
    }
}
