//! Where a reader of a token or of trivia stands: the words in which the lexical grammar is said (ECMA-262, clause 11).

/// Where a reader of trivia stands.
#[derive(Clone, Copy, Debug)]
pub enum TriviaPart {
    /// At the front of a text.
    Front,
    /// Behind a `#` there.
    Hash,
    /// Between comments.
    Between,
    /// Behind the `/` of a comment.
    Slash,
    /// In a comment of one line, or in a first line `#!`.
    Line,
    /// In a comment `/*`.
    Block,
    /// In such a comment, behind a `*`.
    Star,
    /// Past trivia.
    Broken,
}

/// Where a reader of a number stands.
#[derive(Clone, Copy, Debug)]
pub enum NumberPart {
    /// At its front.
    Front,
    /// Behind a `0` at its front.
    Zero,
    /// In digits behind such a `0`.
    Leading,
    /// In the digits of a decimal's integer part.
    Whole,
    /// Behind a `.` with no digit before it.
    Point,
    /// Behind the `.` of a decimal, or in the digits there.
    Fraction,
    /// Behind the `e` of an exponent.
    Exponent,
    /// Behind its sign.
    Sign,
    /// In its digits.
    Power,
    /// Behind the letter of a base, as `0x`, with its radix.
    Prefix(u8),
    /// In the digits behind it.
    Digits(u8),
    /// Past a number.
    Broken,
}

/// Where a reader of a string stands.
#[derive(Clone, Copy, Debug)]
pub enum StringPart {
    /// At its front.
    Front,
    /// In it.
    Within,
    /// Behind a `\`, which passes the next character.
    Passing,
    /// Behind a `\` and a carriage return, which pass a line feed too.
    Returned,
    /// Behind its last quote.
    Closed,
    /// Past a string, or at a line end in it.
    Broken,
}

/// Where a reader of escapes stands.
#[derive(Clone, Copy, Debug)]
pub enum EscapePart {
    /// Outside escapes.
    Plain,
    /// Behind a `\`.
    Behind,
    /// Behind `\u`.
    Unicode,
    /// Behind `\x` or `\u`, before so many hexadecimal digits.
    Digits(u8),
    /// Behind `\u{`.
    Open,
    /// Behind `\u{` and digits of this value.
    Braced(u32),
    /// Behind a wrong escape.
    Wrong,
}

/// Where a reader of a template's part stands.
#[derive(Clone, Copy, Debug)]
pub enum TemplatePart {
    /// At its front.
    Front,
    /// In it.
    Within,
    /// Behind a `\`, which passes the next character.
    Passing,
    /// Behind a `$`.
    Dollar,
    /// Behind `${`.
    Opened,
    /// Behind the last mark of the template.
    Closed,
    /// Past the part.
    Broken,
}

/// Where a reader of a regular expression stands.
#[derive(Clone, Copy, Debug)]
pub enum RegexPart {
    /// At its front.
    Front,
    /// Behind its first `/`.
    First,
    /// In its body.
    Body,
    /// Behind a `\`, which passes the next character that is no line end.
    Passing,
    /// In `[..]`, where a `/` doesn't close.
    Class,
    /// Behind a `\` there.
    PassingInClass,
    /// Behind its last `/`.
    Flags,
    /// Past it, or at a line end in it.
    Broken,
}
