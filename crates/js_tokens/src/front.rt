//! The token at the front of a text, by the goal.
ghost use Rattle.std.specs.Prelude.{◌≡◌, ◌≤◌, ◌<◌, ◌&&◌, ◌||◌, ◌==◌, nat_le, ℕ, length, slice_index, true, false, drop, take, nat_eq, codes};
ghost use Rattle.std.specs.List.{starts_with};
ghost use Rattle.std.specs.Str.{chars, IsCharBoundary};
ghost use Rattle.js_tree.specs.declared.token.TokenClass.{TokenClass};
ghost use Rattle.js_tree.specs.Lexing.{is_word as is_word_of};
ghost use Rattle.js_tree.specs.Lexical.Character as spec;
ghost use Rattle.js_tokens.specs.Fronts.{sort_at, is_template, is_operand, IsFound, IsFoundFor, StandsFor};

use crate::character::{char_at, is_digit, is_quote, is_start};
use crate::fault::Unclosed;
use crate::goal::{Goal, Sort};
use crate::reach::{
    are_right, identifier_len, mark_len, number_len, regex_len, string_len, template_len,
};
use crate::words::is_word;
use js_tree::TokenClass;

/// A token at the front of a text.
#[derive(Clone, Copy)]
pub struct Front {
    /// Its class.
    pub class: TokenClass,
    /// How many bytes it has.
    pub len: usize,
}

/// What was found at the front of a text.
#[derive(Clone, Copy)]
pub enum Found {
    /// A token.
    Token(Front),
    /// The beginning of something that doesn't close.
    Open(Unclosed),
    /// Neither.
    Nothing,
}

// The byte at the index, and 0 past the end.
fn byte_at(bytes: &[u8], index: usize) -> u8
    ensures { result ≡ slice_index bytes.now index }
{
    if index < bytes.len() { bytes[index] } else { 0 }
}

// What begins with these two bytes.
fn sort_at(goal: Goal, first: u8, second: u8) -> Sort
    ensures { result ≡ sort_at goal first second }
{
    if is_quote(first) {
        Sort::Str
    } else if first == b'`' {
        Sort::Template
    } else if is_rest(goal, first) {
        Sort::Rest
    } else if is_regex(goal, first) {
        Sort::Regex
    } else if is_number(first, second) {
        Sort::Number
    } else if is_identifier(first) {
        Sort::Identifier
    } else {
        Sort::Mark
    }
}

fn is_rest(goal: Goal, first: u8) -> bool
    ensures { result ≡ (first == 125 && is_template goal) }
{
    match goal {
        Goal::Template => first == b'}',
        Goal::Operand => false,
        Goal::Operator => false,
    }
}

fn is_regex(goal: Goal, first: u8) -> bool
    ensures { result ≡ (first == 47 && is_operand goal) }
{
    match goal {
        Goal::Operand => first == b'/',
        Goal::Template => false,
        Goal::Operator => false,
    }
}

fn is_number(first: u8, second: u8) -> bool
    ensures { result ≡ (spec.is_digit first || (first == 46 && spec.is_digit second)) }
{
    is_digit(first) || (first == b'.' && is_digit(second))
}

fn is_identifier(first: u8) -> bool
    ensures { result ≡ (nat_le 128 first || spec.is_start first) }
{
    first >= 128 || is_start(first as char)
}

// A string.
fn string_front(bytes: &[u8]) -> Found
    requires { spec.is_quote (slice_index bytes.now 0) ≡ true }
    ensures { IsFound Sort.Str bytes.now result }
{
    let len = string_len(bytes, byte_at(bytes, 0));
    if len == 0 {
        return Found::Open(Unclosed::String);
    }
    if !are_right(&bytes[..len]) {
        return Found::Nothing;
    }
    Found::Token(Front {
        class: TokenClass::Str,
        len,
    })
}

// A template.
fn template_front(bytes: &[u8]) -> Found
    ensures { IsFound Sort.Template bytes.now result }
{
    let len = template_len(bytes, b'`');
    if len == 0 {
        return Found::Open(Unclosed::Template);
    }
    if bytes[len - 1] == b'`' {
        return Found::Token(Front {
            class: TokenClass::TemplateWhole,
            len,
        });
    }
    Found::Token(Front {
        class: TokenClass::TemplateHead,
        len,
    })
}

// The rest of a template.
fn rest_front(bytes: &[u8]) -> Found
    ensures { IsFound Sort.Rest bytes.now result }
{
    let len = template_len(bytes, b'}');
    if len == 0 {
        return Found::Open(Unclosed::Template);
    }
    if bytes[len - 1] == b'`' {
        return Found::Token(Front {
            class: TokenClass::TemplateTail,
            len,
        });
    }
    Found::Token(Front {
        class: TokenClass::TemplateMiddle,
        len,
    })
}

// A regular expression.
fn regex_front(text: &str) -> Found
    ensures { IsFound Sort.Regex text.now result }
{
    let len = regex_len(text);
    if len == 0 {
        return Found::Open(Unclosed::Regex);
    }
    Found::Token(Front {
        class: TokenClass::Regex,
        len,
    })
}

// A name or a word.
fn identifier_front(text: &str) -> Found
    ensures { IsFound Sort.Identifier text.now result }
{
    let len = identifier_len(text);
    if len == 0 {
        return Found::Nothing;
    }
    if is_word(&text.as_bytes()[..len]) {
        return Found::Token(Front {
            class: TokenClass::Word,
            len,
        });
    }
    Found::Token(Front {
        class: TokenClass::Name,
        len,
    })
}

// A mark.
fn mark_front(bytes: &[u8]) -> Found
    requires { (slice_index bytes.now 0 == 46 && spec.is_digit (slice_index bytes.now 1)) ≡ false }
    ensures { IsFound Sort.Mark bytes.now result }
{
    let len = mark_len(bytes).len;
    if len == 0 {
        return Found::Nothing;
    }
    Found::Token(Front {
        class: TokenClass::Punct,
        len,
    })
}

fn is_start_or_digit(c: char) -> bool
    ensures { result ≡ (spec.is_start c || spec.is_digit c) }
{
    is_start(c) || ('0' <= c && c <= '9')
}

// Whether a digit, or what begins a name, stands at the offset.
fn begins_apart(text: &str, at: usize) -> bool
    requires within { at ≤ length text.now }
    requires boundary { IsCharBoundary text.now at }
    ensures { result ≡ spec.begins (λ c. spec.is_start c || spec.is_digit c) (chars (drop at text.now)) }
{
    if at == text.len() {
        return false;
    }
    is_start_or_digit(char_at(text, at))
}

// A number.
fn number_front(text: &str) -> Found
    ensures { IsFound Sort.Number text.now result }
{
    let len = number_len(text.as_bytes());
    if len == 0 {
        return Found::Nothing;
    }
    if begins_apart(text, len) {
        return Found::Nothing;
    }
    Found::Token(Front {
        class: TokenClass::Number,
        len,
    })
}

// What begins at the front of a text that is not barred.
fn sorted_front(text: &str, goal: Goal) -> Found
    ensures { IsFound (sort_at goal (slice_index text.now 0) (slice_index text.now 1)) text.now result }
{
    let bytes = text.as_bytes();
    match sort_at(goal, byte_at(bytes, 0), byte_at(bytes, 1)) {
        Sort::Str => string_front(bytes),
        Sort::Template => template_front(bytes),
        Sort::Rest => rest_front(bytes),
        Sort::Regex => regex_front(text),
        Sort::Number => number_front(text),
        Sort::Identifier => identifier_front(text),
        Sort::Mark => mark_front(bytes),
    }
}

// Whether no token begins there, though no comment does either.
fn is_refused(bytes: &[u8], fresh: bool) -> bool
    ensures { result ≡ (starts_with nat_eq bytes.now (codes "<!--") || (fresh && starts_with nat_eq bytes.now (codes "-->"))) }
{
    bytes.starts_with(b"<!--") || (fresh && bytes.starts_with(b"-->"))
}

/// The token of the goal at the front of a text, before which a token stands on its line unless it is fresh.
pub fn token_at(text: &str, goal: Goal, fresh: bool) -> Found
    ensures found { IsFoundFor goal fresh text.now result }
    ensures only { (c : TokenClass) (n : ℕ) → StandsFor goal fresh c text.now n → result ≡ Found.Token (record { class = c; len = n }) }
{
    let bytes = text.as_bytes();
    if bytes.starts_with(b"/*") {
        return Found::Open(Unclosed::Comment);
    }
    if is_refused(bytes, fresh) {
        return Found::Nothing;
    }
    sorted_front(text, goal)
}
