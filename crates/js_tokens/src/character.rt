//! Characters (ECMA-262, 11.2, 11.3 and 11.6).
ghost use Rattle.std.specs.Prelude.{◌≡◌, ◌<◌, ◌&&◌, ◌||◌, ◌==◌, nat_le, IfSome, None, length};
ghost use Rattle.std.specs.Char.{is_ascii_alphabetic, is_ascii_alphanumeric};
ghost use Rattle.std.specs.Str.{IsCharBoundary};
ghost use Rattle.js_tree.specs.Lexical.Character as spec;
ghost use Rattle.js_tokens.specs.Reading.{IsCharAt};

// Whether the character is a letter, digit or sign of ASCII, as most are.
fn is_plain(c: char) -> bool
    ensures { result ≡ (nat_le 33 c && nat_le c 126) }
{
    '!' <= c && c <= '~'
}

/// Whether the character is a line end.
pub fn is_line_end(c: char) -> bool
    ensures { result ≡ spec.is_line_end c }
{
    if is_plain(c) {
        return false;
    }
    c == '\n' || c == '\r' || c == '\u{2028}' || c == '\u{2029}'
}

/// Whether the character is white space other than a line end.
pub fn is_space(c: char) -> bool
    ensures { result ≡ spec.is_space c }
{
    if is_plain(c) {
        return false;
    }
    c == '\t'
        || c == '\u{b}'
        || c == '\u{c}'
        || c == ' '
        || c == '\u{a0}'
        || c == '\u{feff}'
        || c == '\u{1680}'
        || ('\u{2000}' <= c && c <= '\u{200a}')
        || c == '\u{202f}'
        || c == '\u{205f}'
        || c == '\u{3000}'
}

/// Whether a name may begin with the character.
pub fn is_start(c: char) -> bool
    ensures { result ≡ spec.is_start c }
{
    if c < '\u{80}' {
        return is_ascii_start(c);
    }
    unicode_ident::is_xid_start(c) || c == '$' || c == '_'
}

// The same, of ASCII.
fn is_ascii_start(c: char) -> bool
    ensures { result ≡ (is_ascii_alphabetic c || c == 36 || c == 95) }
{
    c.is_ascii_alphabetic() || c == '$' || c == '_'
}

/// Whether a name may go on with the character.
pub fn is_part(c: char) -> bool
    ensures { result ≡ spec.is_part c }
{
    if c < '\u{80}' {
        return is_ascii_part(c);
    }
    unicode_ident::is_xid_continue(c) || c == '$' || c == '\u{200c}' || c == '\u{200d}'
}

// The same, of ASCII.
fn is_ascii_part(c: char) -> bool
    ensures { result ≡ (is_ascii_alphanumeric c || c == 95 || c == 36) }
{
    c.is_ascii_alphanumeric() || c == '_' || c == '$'
}

/// Whether the byte is a decimal digit.
pub fn is_digit(c: u8) -> bool
    ensures { result ≡ spec.is_digit c }
{
    b'0' <= c && c <= b'9'
}

/// Whether the byte is `"` or `'`.
pub fn is_quote(c: u8) -> bool
    ensures { result ≡ spec.is_quote c }
{
    c == b'"' || c == b'\''
}

/// The first character of the text.
pub fn first_char(text: &str) -> Option<char>
    ensures found { IfSome result (λ c. IsCharAt text.now 0 c) }
    ensures none { result ≡ None → length text.now ≡ 0 }
{
    text.chars().next()
}

/// The character of the text at the offset.
pub fn char_at(text: &str, at: usize) -> char
    requires within { at < length text.now }
    requires boundary { IsCharBoundary text.now at }
    ensures { IsCharAt text.now at result }
{
    let byte = text.as_bytes()[at];
    if byte < 128 {
        byte as char
    } else {
        far_char_at(text, at)
    }
}

// The same, of any character.
fn far_char_at(text: &str, at: usize) -> char
    requires within { at < length text.now }
    requires boundary { IsCharBoundary text.now at }
    ensures { IsCharAt text.now at result }
{
    let (_, rest) = text.split_at(at);
    match first_char(rest) {
        Some(c) => c,
        None => ' ',
    }
}
