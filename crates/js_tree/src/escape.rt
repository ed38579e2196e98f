//! Where a character leads a reader of a string's value (ECMA-262, 11.8.4).
ghost use Rattle.std.specs.Prelude.{◌≡◌, ◌<◌, ◌*◌, ◌+◌, true, IfSome, Some, None, if◌then◌else◌};
ghost use Rattle.std.specs.Char.{digit_value};
ghost use Rattle.js_tree.specs.Lexical.Character as character;
ghost use Rattle.js_tree.specs.Lexical.Value as string;

/// Where a reader of a string's value stands.
#[derive(Clone, Copy, Debug)]
pub enum ValuePart {
    /// Outside escapes.
    Plain,
    /// Behind a `\`.
    Behind,
    /// Behind a `\` and a carriage return, which pass a line feed too.
    Returned,
    /// Behind `\0`.
    Zero,
    /// Behind `\x`.
    Hexadecimal,
    /// Behind `\u`.
    Unicode,
    /// Before three hexadecimal digits, behind digits of this value.
    Three(u32),
    /// Before two.
    Two(u32),
    /// Before one.
    One(u32),
    /// Behind `\u{`.
    Open,
    /// Behind `\u{` and digits of this value.
    Braced(u32),
    /// Behind an escape that has no value.
    Wrong,
}

/// Where a character leads, and the code point or code unit that it ends.
#[derive(Clone, Copy, Debug)]
pub struct ValueStep {
    /// The part.
    pub part: ValuePart,
    /// The code.
    pub code: Option<u32>,
}

/// Where a character leads from a part.
pub fn value_step(part: ValuePart, c: char) -> ValueStep
    requires { string.is_low part ≡ true }
    ensures value { result ≡ string.step part c }
    ensures low { string.is_low result.part ≡ true }
    ensures code { IfSome result.code (λ code. code < 0x110000) }
{
    match part {
        ValuePart::Plain => plain(c),
        ValuePart::Behind => behind(c),
        ValuePart::Returned => behind_return(c),
        ValuePart::Zero => behind_zero(c),
        ValuePart::Hexadecimal => behind_x(c),
        ValuePart::Unicode => behind_u(c),
        ValuePart::Three(value) => third_last(value, c),
        ValuePart::Two(value) => second_last(value, c),
        ValuePart::One(value) => last(value, c),
        ValuePart::Open => behind_brace(c),
        ValuePart::Braced(value) => in_braces(value, c),
        ValuePart::Wrong => to(ValuePart::Wrong),
    }
}

/// Whether a value may end there.
pub fn value_may_end(part: ValuePart) -> bool
    ensures { result ≡ string.may_end part }
{
    match part {
        ValuePart::Plain => true,
        ValuePart::Returned => true,
        ValuePart::Zero => true,
        _ => false,
    }
}

fn to(part: ValuePart) -> ValueStep
    ensures { result ≡ string.to part }
{
    ValueStep { part, code: None }
}

fn gives(code: u32) -> ValueStep
    ensures { result ≡ string.gives code }
{
    ValueStep {
        part: ValuePart::Plain,
        code: Some(code),
    }
}

fn plain(c: char) -> ValueStep
    ensures value { result ≡ string.plain c }
    ensures low { string.is_low result.part ≡ true }
    ensures code { IfSome result.code (λ code. code < 0x110000) }
{
    if c == '\\' {
        to(ValuePart::Behind)
    } else {
        gives(c as u32)
    }
}

// What a character behind a `\` stands for.
fn single(c: char) -> u32
    ensures value { result ≡ string.single c }
    ensures below { result < 0x110000 }
{
    if c == 'b' {
        8
    } else if c == 't' {
        9
    } else if c == 'n' {
        10
    } else if c == 'v' {
        11
    } else if c == 'f' {
        12
    } else if c == 'r' {
        13
    } else {
        c as u32
    }
}

// Whether the character is a line end.
fn is_line_end(c: char) -> bool
    ensures { result ≡ character.is_line_end c }
{
    c == '\n' || c == '\r' || c == '\u{2028}' || c == '\u{2029}'
}

// Whether the character is a decimal digit.
fn is_digit(c: char) -> bool
    ensures { result ≡ character.is_digit c }
{
    '0' <= c && c <= '9'
}

// The value of a hexadecimal digit.
fn hexadecimal(c: char) -> Option<u32>
    ensures value { result ≡ (if character.is_hex c then Some (digit_value c) else None) }
    ensures below { IfSome result (λ digit. digit < 16) }
{
    c.to_digit(16)
}

fn behind(c: char) -> ValueStep
    ensures value { result ≡ string.behind c }
    ensures low { string.is_low result.part ≡ true }
    ensures code { IfSome result.code (λ code. code < 0x110000) }
{
    if c == '\r' {
        to(ValuePart::Returned)
    } else if is_line_end(c) {
        to(ValuePart::Plain)
    } else if c == '0' {
        ValueStep {
            part: ValuePart::Zero,
            code: Some(0),
        }
    } else if is_digit(c) {
        to(ValuePart::Wrong)
    } else if c == 'x' {
        to(ValuePart::Hexadecimal)
    } else if c == 'u' {
        to(ValuePart::Unicode)
    } else {
        gives(single(c))
    }
}

fn behind_return(c: char) -> ValueStep
    ensures value { result ≡ string.step ValuePart.Returned c }
    ensures low { string.is_low result.part ≡ true }
    ensures code { IfSome result.code (λ code. code < 0x110000) }
{
    if c == '\n' {
        to(ValuePart::Plain)
    } else {
        plain(c)
    }
}

fn behind_zero(c: char) -> ValueStep
    ensures value { result ≡ string.step ValuePart.Zero c }
    ensures low { string.is_low result.part ≡ true }
    ensures code { IfSome result.code (λ code. code < 0x110000) }
{
    if is_digit(c) {
        to(ValuePart::Wrong)
    } else {
        plain(c)
    }
}

fn behind_x(c: char) -> ValueStep
    ensures value { result ≡ string.step ValuePart.Hexadecimal c }
    ensures low { string.is_low result.part ≡ true }
    ensures code { result.code ≡ None }
{
    match hexadecimal(c) {
        Some(digit) => to(ValuePart::One(digit)),
        None => to(ValuePart::Wrong),
    }
}

fn behind_u(c: char) -> ValueStep
    ensures value { result ≡ string.step ValuePart.Unicode c }
    ensures low { string.is_low result.part ≡ true }
    ensures code { result.code ≡ None }
{
    if c == '{' {
        return to(ValuePart::Open);
    }
    match hexadecimal(c) {
        Some(digit) => to(ValuePart::Three(digit)),
        None => to(ValuePart::Wrong),
    }
}

fn third_last(value: u32, c: char) -> ValueStep
    requires { value < 16 }
    ensures value { result ≡ string.step (ValuePart.Three value) c }
    ensures low { string.is_low result.part ≡ true }
    ensures code { result.code ≡ None }
{
    match hexadecimal(c) {
        Some(digit) => to(ValuePart::Two(16 * value + digit)),
        None => to(ValuePart::Wrong),
    }
}

fn second_last(value: u32, c: char) -> ValueStep
    requires { value < 256 }
    ensures value { result ≡ string.step (ValuePart.Two value) c }
    ensures low { string.is_low result.part ≡ true }
    ensures code { result.code ≡ None }
{
    match hexadecimal(c) {
        Some(digit) => to(ValuePart::One(16 * value + digit)),
        None => to(ValuePart::Wrong),
    }
}

fn last(value: u32, c: char) -> ValueStep
    requires { value < 4096 }
    ensures value { result ≡ string.step (ValuePart.One value) c }
    ensures low { string.is_low result.part ≡ true }
    ensures code { IfSome result.code (λ code. code < 0x110000) }
{
    match hexadecimal(c) {
        Some(digit) => gives(16 * value + digit),
        None => to(ValuePart::Wrong),
    }
}

fn behind_brace(c: char) -> ValueStep
    ensures value { result ≡ string.step ValuePart.Open c }
    ensures low { string.is_low result.part ≡ true }
    ensures code { result.code ≡ None }
{
    match hexadecimal(c) {
        Some(digit) => braced(digit),
        None => to(ValuePart::Wrong),
    }
}

// In `\u{`, behind digits of this value.
fn braced(value: u32) -> ValueStep
    ensures value { result ≡ string.braced value }
    ensures low { string.is_low result.part ≡ true }
    ensures code { result.code ≡ None }
{
    if value < 0x110000 {
        to(ValuePart::Braced(value))
    } else {
        to(ValuePart::Wrong)
    }
}

fn in_braces(value: u32, c: char) -> ValueStep
    requires { value < 0x110000 }
    ensures value { result ≡ string.step (ValuePart.Braced value) c }
    ensures low { string.is_low result.part ≡ true }
    ensures code { IfSome result.code (λ code. code < 0x110000) }
{
    if c == '}' {
        return gives(value);
    }
    match hexadecimal(c) {
        Some(digit) => braced(16 * value + digit),
        None => to(ValuePart::Wrong),
    }
}
