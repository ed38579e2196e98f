//! How far each form reaches from the front of a text (ECMA-262, clause 11).
ghost use Rattle.std.specs.Prelude.{◌≡◌, ◌+◌, ◌<◌, ◌==◌, ℕ, length, take, if◌then◌else◌, slice_index, true};
ghost use Rattle.std.specs.List.{list_any};
ghost use Rattle.js_tree.specs.Lexical.{begin_trivia, IsTrivia, IsIdentifier, IsNumber, IsRegex, ReadsBytes, are_right, has_line_end as has_line_end_of};
ghost use Rattle.js_tree.specs.Lexical.Character as spec;
ghost use Rattle.js_tree.specs.Lexical.Quoted as quoted;
ghost use Rattle.js_tree.specs.Lexical.Template as template;
ghost use Rattle.js_tokens.specs.Placed.{IsPlaced};
ghost use Rattle.js_tokens.specs.Marks as marks;
ghost use Rattle.js_tokens.specs.Reading.{Reached};

use crate::character::{char_at, is_line_end, is_part, is_start};
use crate::mark::{MarkPart, mark_is_done, mark_may_end, mark_next, mark_place};
use crate::quoted::{
    escape_next, is_plain, regex_may_end, regex_next, string_may_end, string_next,
    template_may_end, template_next,
};
use crate::steps::{number_may_end, number_next, trivia_may_end, trivia_next};
use js_tree::{EscapePart, NumberPart, RegexPart, StringPart, TemplatePart, TriviaPart};

/// How far a mark reaches, in bytes, and its place in the table of marks.
#[derive(Clone, Copy)]
pub struct MarkEnd {
    /// Its bytes; 0 where none stands.
    pub len: usize,
    /// Its place.
    pub place: u8,
}

// The mark that may end behind n bytes; else the one that ended before.
fn kept_mark(part: MarkPart, n: usize, last: MarkEnd) -> MarkEnd
    ensures { result ≡ (if marks.may_end part then record { len = n; place = marks.place part } else last) }
{
    if mark_may_end(part) {
        MarkEnd {
            len: n,
            place: mark_place(part),
        }
    } else {
        last
    }
}

/// The mark that the text begins with.
pub fn mark_len(bytes: &[u8]) -> MarkEnd
    ensures reached { Reached (ReadsBytes marks.next marks.may_end MarkPart.Front) bytes.now result.len }
    ensures placed { IsPlaced bytes.now result }
{
    let mut part = MarkPart::Front;
    let mut n = 0;
    let mut last = MarkEnd { len: 0, place: 0 };
    while n < bytes.len() {
        part = mark_next(part, bytes[n]);
        if let MarkPart::Broken = part {
            return last;
        }
        n += 1;
        last = kept_mark(part, n, last);
        if mark_is_done(part) {
            return last;
        }
    }
    last
}

// Where the form may end behind n bytes, n; else where it ended before.
fn kept(ends: bool, n: usize, last: usize) -> usize
    ensures { result ≡ (if ends then n else last) }
{
    if ends { n } else { last }
}

// Where trivia begins.
fn begun(at: u32) -> TriviaPart
    ensures { result ≡ begin_trivia at }
{
    if at == 0 {
        TriviaPart::Front
    } else {
        TriviaPart::Between
    }
}

/// How many bytes of trivia the text begins with, which stands at the offset in a whole text.
pub fn trivia_len(text: &str, at: u32) -> usize
    ensures { Reached (IsTrivia at) text.now result }
{
    let mut part = begun(at);
    let mut n = 0;
    let mut last = 0;
    while n < text.len() {
        let c = char_at(text, n);
        part = trivia_next(part, c);
        if let TriviaPart::Broken = part {
            return last;
        }
        n += c.len_utf8();
        last = kept(trivia_may_end(part), n, last);
    }
    last
}

/// How many bytes the number has that the text begins with.
pub fn number_len(bytes: &[u8]) -> usize
    ensures { Reached IsNumber bytes.now result }
{
    let mut part = NumberPart::Front;
    let mut n = 0;
    let mut last = 0;
    while n < bytes.len() {
        part = number_next(part, bytes[n]);
        if let NumberPart::Broken = part {
            return last;
        }
        n += 1;
        last = kept(number_may_end(part), n, last);
    }
    last
}

/// How many bytes the string with this quote has that the text begins with.
pub fn string_len(bytes: &[u8], quote: u8) -> usize
    ensures { Reached (ReadsBytes (quoted.next quote) quoted.may_end StringPart.Front) bytes.now result }
{
    let mut part = StringPart::Front;
    let mut n = 0;
    let mut last = 0;
    while n < bytes.len() {
        part = string_next(quote, part, bytes[n]);
        if let StringPart::Broken = part {
            return last;
        }
        n += 1;
        last = kept(string_may_end(part), n, last);
    }
    last
}

/// How many bytes the regular expression has that the text begins with.
pub fn regex_len(text: &str) -> usize
    ensures { Reached IsRegex text.now result }
{
    let mut part = RegexPart::Front;
    let mut n = 0;
    let mut last = 0;
    while n < text.len() {
        let c = char_at(text, n);
        part = regex_next(part, c);
        if let RegexPart::Broken = part {
            return last;
        }
        n += c.len_utf8();
        last = kept(regex_may_end(part), n, last);
    }
    last
}

/// How many bytes the name or word has that the text begins with.
pub fn identifier_len(text: &str) -> usize
    ensures { Reached IsIdentifier text.now result }
{
    if text.is_empty() {
        return 0;
    }
    let first = char_at(text, 0);
    if !is_start(first) {
        return 0;
    }
    let mut n = first.len_utf8();
    while n < text.len() {
        let c = char_at(text, n);
        if !is_part(c) {
            return n;
        }
        n += c.len_utf8();
    }
    n
}

/// Whether the escapes of a string are right.
pub fn are_right(bytes: &[u8]) -> bool
    ensures { result ≡ are_right bytes.now }
{
    let mut part = EscapePart::Plain;
    for byte in bytes {
        part = escape_next(part, *byte);
    }
    is_plain(part)
}

/// Whether the text has a line end.
pub fn has_line_end(text: &str) -> bool
    ensures { result ≡ has_line_end_of text.now }
{
    text.chars().any(|c| is_line_end(c))
}

/// How many bytes the part of a template has that begins with this mark.
pub fn template_len(bytes: &[u8], mark: u8) -> usize
    ensures { Reached (ReadsBytes (template.next mark) template.may_end TemplatePart.Front) bytes.now result }
{
    let mut part = TemplatePart::Front;
    let mut n = 0;
    let mut last = 0;
    while n < bytes.len() {
        part = template_next(mark, part, bytes[n]);
        if let TemplatePart::Broken = part {
            return last;
        }
        n += 1;
        last = kept(template_may_end(part), n, last);
    }
    last
}
