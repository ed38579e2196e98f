//! Where a character leads a reader of strings, templates and regular expressions (ECMA-262, 11.8.4 to 11.8.6).
ghost use Rattle.std.specs.Prelude.{◌≡◌, ◌<◌, true};
ghost use Rattle.std.specs.Char.{digit_value};
ghost use Rattle.js_tree.specs.Lexical.Quoted as quoted;
ghost use Rattle.js_tree.specs.Lexical.Template as template;
ghost use Rattle.js_tree.specs.Lexical.Regex as regex;

use crate::character::{is_line_end, is_part};
use crate::steps::digit_value;
use js_tree::{EscapePart, RegexPart, StringPart, TemplatePart};

// In a string.
fn within_string(quote: u8, c: u8) -> StringPart
    ensures { result ≡ quoted.within quote c }
{
    if c == quote {
        StringPart::Closed
    } else if c == b'\\' {
        StringPart::Passing
    } else if c == b'\n' {
        StringPart::Broken
    } else if c == b'\r' {
        StringPart::Broken
    } else {
        StringPart::Within
    }
}

/// Where a byte leads in a string with this quote.
pub fn string_next(quote: u8, part: StringPart, c: u8) -> StringPart
    ensures { result ≡ quoted.next quote part c }
{
    match part {
        StringPart::Front => {
            if c == quote {
                StringPart::Within
            } else {
                StringPart::Broken
            }
        }
        StringPart::Within => within_string(quote, c),
        StringPart::Passing => {
            if c == b'\r' {
                StringPart::Returned
            } else {
                StringPart::Within
            }
        }
        StringPart::Returned => {
            if c == b'\n' {
                StringPart::Within
            } else {
                within_string(quote, c)
            }
        }
        StringPart::Closed => StringPart::Broken,
        StringPart::Broken => StringPart::Broken,
    }
}

/// Whether a string may end there.
pub fn string_may_end(part: StringPart) -> bool
    ensures { result ≡ quoted.may_end part }
{
    match part {
        StringPart::Closed => true,
        _ => false,
    }
}

// Behind `\u{` and digits of this value.
fn braced(value: u32) -> EscapePart
    ensures { result ≡ quoted.braced value }
{
    if value <= 0x10ffff {
        EscapePart::Braced(value)
    } else {
        EscapePart::Wrong
    }
}

// In `\u{`, behind digits of this value.
fn more_braced(value: u32, c: u8) -> EscapePart
    requires { value < 1114112 }
    ensures { result ≡ quoted.in_escape (EscapePart.Braced value) c }
{
    if c == b'}' {
        EscapePart::Plain
    } else if digit_value(c) < 16 {
        braced(16 * value + digit_value(c) as u32)
    } else {
        EscapePart::Wrong
    }
}

// Before so many hexadecimal digits.
fn more_digits(left: u8, c: u8) -> EscapePart
    ensures { result ≡ quoted.in_escape (EscapePart.Digits left) c }
{
    if digit_value(c) < 16 {
        if left == 1 {
            EscapePart::Plain
        } else {
            EscapePart::Digits(left.saturating_sub(1))
        }
    } else {
        EscapePart::Wrong
    }
}

// Behind a `\`.
fn behind_backslash(c: u8) -> EscapePart
    ensures { result ≡ quoted.in_escape EscapePart.Behind c }
{
    if c == b'x' {
        EscapePart::Digits(2)
    } else if c == b'u' {
        EscapePart::Unicode
    } else {
        EscapePart::Plain
    }
}

// Behind `\u`.
fn behind_u(c: u8) -> EscapePart
    ensures { result ≡ quoted.in_escape EscapePart.Unicode c }
{
    if c == b'{' {
        EscapePart::Open
    } else if digit_value(c) < 16 {
        EscapePart::Digits(3)
    } else {
        EscapePart::Wrong
    }
}

/// Where a byte leads a reader of escapes.
pub fn escape_next(part: EscapePart, c: u8) -> EscapePart
    requires { quoted.is_low part ≡ true }
    ensures value { result ≡ quoted.in_escape part c }
    ensures low { quoted.is_low result ≡ true }
{
    match part {
        EscapePart::Plain => {
            if c == b'\\' {
                EscapePart::Behind
            } else {
                EscapePart::Plain
            }
        }
        EscapePart::Behind => behind_backslash(c),
        EscapePart::Unicode => behind_u(c),
        EscapePart::Digits(left) => more_digits(left, c),
        EscapePart::Open => {
            if digit_value(c) < 16 {
                EscapePart::Braced(digit_value(c) as u32)
            } else {
                EscapePart::Wrong
            }
        }
        EscapePart::Braced(value) => more_braced(value, c),
        EscapePart::Wrong => EscapePart::Wrong,
    }
}

/// Whether no escape is open there, and none was wrong.
pub fn is_plain(part: EscapePart) -> bool
    ensures { result ≡ quoted.is_plain part }
{
    match part {
        EscapePart::Plain => true,
        _ => false,
    }
}

// In a part of a template.
fn within_template(c: u8) -> TemplatePart
    ensures { result ≡ template.within c }
{
    if c == b'`' {
        TemplatePart::Closed
    } else if c == b'\\' {
        TemplatePart::Passing
    } else if c == b'$' {
        TemplatePart::Dollar
    } else {
        TemplatePart::Within
    }
}

/// Where a byte leads in a part of a template that begins with this mark.
pub fn template_next(mark: u8, part: TemplatePart, c: u8) -> TemplatePart
    ensures { result ≡ template.next mark part c }
{
    match part {
        TemplatePart::Front => {
            if c == mark {
                TemplatePart::Within
            } else {
                TemplatePart::Broken
            }
        }
        TemplatePart::Within => within_template(c),
        TemplatePart::Passing => TemplatePart::Within,
        TemplatePart::Dollar => {
            if c == b'{' {
                TemplatePart::Opened
            } else {
                within_template(c)
            }
        }
        TemplatePart::Opened => TemplatePart::Broken,
        TemplatePart::Closed => TemplatePart::Broken,
        TemplatePart::Broken => TemplatePart::Broken,
    }
}

/// Whether a part of a template may end there.
pub fn template_may_end(part: TemplatePart) -> bool
    ensures { result ≡ template.may_end part }
{
    match part {
        TemplatePart::Opened => true,
        TemplatePart::Closed => true,
        _ => false,
    }
}

// In the body of a regular expression.
fn in_body(c: char) -> RegexPart
    ensures { result ≡ regex.body c }
{
    if is_line_end(c) {
        RegexPart::Broken
    } else if c == '/' {
        RegexPart::Flags
    } else if c == '\\' {
        RegexPart::Passing
    } else if c == '[' {
        RegexPart::Class
    } else {
        RegexPart::Body
    }
}

// In `[..]` there.
fn in_class(c: char) -> RegexPart
    ensures { result ≡ regex.next RegexPart.Class c }
{
    if is_line_end(c) {
        RegexPart::Broken
    } else if c == ']' {
        RegexPart::Body
    } else if c == '\\' {
        RegexPart::PassingInClass
    } else {
        RegexPart::Class
    }
}

// Behind the first `/`.
fn behind_slash(c: char) -> RegexPart
    ensures { result ≡ regex.next RegexPart.First c }
{
    if c == '*' {
        RegexPart::Broken
    } else if c == '/' {
        RegexPart::Broken
    } else {
        in_body(c)
    }
}

/// Where a character leads in a regular expression.
pub fn regex_next(part: RegexPart, c: char) -> RegexPart
    ensures { result ≡ regex.next part c }
{
    match part {
        RegexPart::Front => {
            if c == '/' {
                RegexPart::First
            } else {
                RegexPart::Broken
            }
        }
        RegexPart::First => behind_slash(c),
        RegexPart::Body => in_body(c),
        RegexPart::Passing => {
            if is_line_end(c) {
                RegexPart::Broken
            } else {
                RegexPart::Body
            }
        }
        RegexPart::Class => in_class(c),
        RegexPart::PassingInClass => {
            if is_line_end(c) {
                RegexPart::Broken
            } else {
                RegexPart::Class
            }
        }
        RegexPart::Flags => {
            if is_part(c) {
                RegexPart::Flags
            } else {
                RegexPart::Broken
            }
        }
        RegexPart::Broken => RegexPart::Broken,
    }
}

/// Whether a regular expression may end there.
pub fn regex_may_end(part: RegexPart) -> bool
    ensures { result ≡ regex.may_end part }
{
    match part {
        RegexPart::Flags => true,
        _ => false,
    }
}
