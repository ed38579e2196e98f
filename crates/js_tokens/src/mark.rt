//! Marks (ECMA-262, 11.7).
ghost use Rattle.std.specs.Prelude.{◌≡◌, ◌==◌, if◌then◌else◌};
ghost use Rattle.js_tokens.specs.Marks as spec;

/// Where a reader of a mark stands: behind a mark that may go on, or behind one that may not, with its place in the
/// table of marks.
#[derive(Clone, Copy, Debug)]
pub enum MarkPart {
    /// At its front.
    Front,
    /// Behind `.`.
    Dot,
    /// Behind `..`, which is no mark.
    Dots,
    /// Behind `<`.
    Less,
    /// Behind `>`.
    Greater,
    /// Behind `<<`.
    Left,
    /// Behind `>>`.
    Right,
    /// Behind `>>>`.
    Unsigned,
    /// Behind `=`.
    Equal,
    /// Behind `==`.
    Equals,
    /// Behind `!`.
    Bang,
    /// Behind `!=`.
    Unequal,
    /// Behind `+`.
    Plus,
    /// Behind `-`.
    Minus,
    /// Behind `*`.
    Star,
    /// Behind `**`.
    Stars,
    /// Behind `/`.
    Slash,
    /// Behind `%`.
    Percent,
    /// Behind `&`.
    And,
    /// Behind `|`.
    Or,
    /// Behind `^`.
    Caret,
    /// Behind a mark that doesn't go on, with its place.
    Done(u8),
    /// Past a mark.
    Broken,
}

fn brackets(c: u8) -> MarkPart
    ensures { result ≡ spec.brackets c }
{
    if c == b'{' {
        MarkPart::Done(0)
    } else if c == b'}' {
        MarkPart::Done(1)
    } else if c == b'(' {
        MarkPart::Done(2)
    } else if c == b')' {
        MarkPart::Done(3)
    } else if c == b'[' {
        MarkPart::Done(4)
    } else if c == b']' {
        MarkPart::Done(5)
    } else {
        stops(c)
    }
}

fn stops(c: u8) -> MarkPart
    ensures { result ≡ spec.stops c }
{
    if c == b'.' {
        MarkPart::Dot
    } else if c == b';' {
        MarkPart::Done(8)
    } else if c == b',' {
        MarkPart::Done(9)
    } else if c == b'~' {
        MarkPart::Done(33)
    } else if c == b'?' {
        MarkPart::Done(36)
    } else if c == b':' {
        MarkPart::Done(37)
    } else {
        orders(c)
    }
}

fn orders(c: u8) -> MarkPart
    ensures { result ≡ spec.orders c }
{
    if c == b'<' {
        MarkPart::Less
    } else if c == b'>' {
        MarkPart::Greater
    } else if c == b'=' {
        MarkPart::Equal
    } else if c == b'!' {
        MarkPart::Bang
    } else {
        signs(c)
    }
}

fn signs(c: u8) -> MarkPart
    ensures { result ≡ spec.signs c }
{
    if c == b'+' {
        MarkPart::Plus
    } else if c == b'-' {
        MarkPart::Minus
    } else if c == b'*' {
        MarkPart::Star
    } else if c == b'/' {
        MarkPart::Slash
    } else if c == b'%' {
        MarkPart::Percent
    } else {
        bits(c)
    }
}

fn bits(c: u8) -> MarkPart
    ensures { result ≡ spec.bits c }
{
    if c == b'&' {
        MarkPart::And
    } else if c == b'|' {
        MarkPart::Or
    } else if c == b'^' {
        MarkPart::Caret
    } else {
        MarkPart::Broken
    }
}

/// Where a byte leads in a mark.
pub fn mark_next(part: MarkPart, c: u8) -> MarkPart
    ensures { result ≡ spec.next part c }
{
    match part {
        MarkPart::Front => brackets(c),
        MarkPart::Dot => step(c, b'.', MarkPart::Dots, MarkPart::Broken),
        MarkPart::Dots => step(c, b'.', MarkPart::Done(7), MarkPart::Broken),
        MarkPart::Less => either(c, b'<', MarkPart::Left, b'=', MarkPart::Done(12)),
        MarkPart::Greater => either(c, b'=', MarkPart::Done(13), b'>', MarkPart::Right),
        MarkPart::Left => step(c, b'=', MarkPart::Done(45), MarkPart::Broken),
        MarkPart::Right => either(c, b'=', MarkPart::Done(46), b'>', MarkPart::Unsigned),
        MarkPart::Unsigned => step(c, b'=', MarkPart::Done(47), MarkPart::Broken),
        MarkPart::Equal => either(c, b'=', MarkPart::Equals, b'>', MarkPart::Done(51)),
        MarkPart::Equals => step(c, b'=', MarkPart::Done(16), MarkPart::Broken),
        MarkPart::Bang => step(c, b'=', MarkPart::Unequal, MarkPart::Broken),
        MarkPart::Unequal => step(c, b'=', MarkPart::Done(17), MarkPart::Broken),
        MarkPart::Plus => either(c, b'+', MarkPart::Done(24), b'=', MarkPart::Done(39)),
        MarkPart::Minus => either(c, b'-', MarkPart::Done(25), b'=', MarkPart::Done(40)),
        MarkPart::Star => either(c, b'*', MarkPart::Stars, b'=', MarkPart::Done(41)),
        MarkPart::Stars => step(c, b'=', MarkPart::Done(44), MarkPart::Broken),
        MarkPart::Slash => step(c, b'=', MarkPart::Done(42), MarkPart::Broken),
        MarkPart::Percent => step(c, b'=', MarkPart::Done(43), MarkPart::Broken),
        MarkPart::And => either(c, b'&', MarkPart::Done(34), b'=', MarkPart::Done(48)),
        MarkPart::Or => either(c, b'=', MarkPart::Done(49), b'|', MarkPart::Done(35)),
        MarkPart::Caret => step(c, b'=', MarkPart::Done(50), MarkPart::Broken),
        MarkPart::Done(_) => MarkPart::Broken,
        MarkPart::Broken => MarkPart::Broken,
    }
}

// The first part where the byte is the wanted one, else the other.
fn step(c: u8, wanted: u8, to: MarkPart, other: MarkPart) -> MarkPart
    ensures { result ≡ (if c == wanted then to else other) }
{
    if c == wanted { to } else { other }
}

// What the byte leads to of two bytes that a mark may go on with.
fn either(c: u8, one: u8, to: MarkPart, two: u8, other: MarkPart) -> MarkPart
    ensures { result ≡ (if c == one then to else (if c == two then other else MarkPart.Broken)) }
{
    step(c, one, to, step(c, two, other, MarkPart::Broken))
}

/// Whether a mark may end there.
pub fn mark_may_end(part: MarkPart) -> bool
    ensures { result ≡ spec.may_end part }
{
    match part {
        MarkPart::Front => false,
        MarkPart::Dot => true,
        MarkPart::Dots => false,
        MarkPart::Less => true,
        MarkPart::Greater => true,
        MarkPart::Left => true,
        MarkPart::Right => true,
        MarkPart::Unsigned => true,
        MarkPart::Equal => true,
        MarkPart::Equals => true,
        MarkPart::Bang => true,
        MarkPart::Unequal => true,
        MarkPart::Plus => true,
        MarkPart::Minus => true,
        MarkPart::Star => true,
        MarkPart::Stars => true,
        MarkPart::Slash => true,
        MarkPart::Percent => true,
        MarkPart::And => true,
        MarkPart::Or => true,
        MarkPart::Caret => true,
        MarkPart::Done(_) => true,
        MarkPart::Broken => false,
    }
}

/// The place of the mark in the table.
pub fn mark_place(part: MarkPart) -> u8
    ensures { result ≡ spec.place part }
{
    match part {
        MarkPart::Front => 0,
        MarkPart::Dot => 6,
        MarkPart::Dots => 0,
        MarkPart::Less => 10,
        MarkPart::Greater => 11,
        MarkPart::Left => 26,
        MarkPart::Right => 27,
        MarkPart::Unsigned => 28,
        MarkPart::Equal => 38,
        MarkPart::Equals => 14,
        MarkPart::Bang => 32,
        MarkPart::Unequal => 15,
        MarkPart::Plus => 18,
        MarkPart::Minus => 19,
        MarkPart::Star => 20,
        MarkPart::Stars => 23,
        MarkPart::Slash => 21,
        MarkPart::Percent => 22,
        MarkPart::And => 29,
        MarkPart::Or => 30,
        MarkPart::Caret => 31,
        MarkPart::Done(place) => place,
        MarkPart::Broken => 0,
    }
}

/// Whether no mark goes on there.
pub fn mark_is_done(part: MarkPart) -> bool
    ensures { result ≡ spec.is_done part }
{
    match part {
        MarkPart::Done(_) => true,
        _ => false,
    }
}
