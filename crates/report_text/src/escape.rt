//! Texts taken from files, printed so that each stays on its line.
ghost use Rattle.std.specs.Prelude.{◌≡◌, ℕ, ◌<◌, ◌++◌, ◌∷◌, [], List, IfOk, OnOk, string_bytes};
ghost use Rattle.std.specs.Char.{digit_char};
ghost use Rattle.report_text.specs.Escape.{printed, escaped as escaped_text, hexadecimal};

use jam_base::{OutOfMemory, Text};
use std::alloc::{AllocError, Global};

/// The text with `\u` and four lower-case hexadecimal digits in place of each character below U+0020,
/// of U+007F and of `\`.
pub fn escaped(alloc: Global, text: &str) -> Result<Text, OutOfMemory>
    ensures { IfOk result (λ made. made ≡ escaped_text text.now) }
{
    let mut out = String::new(alloc);
    push_escaped(&mut out, text)?;
    Ok(Text::from_string(out))
}

pub(crate) fn push_escaped(out: &mut String, text: &str) -> Result<(), AllocError>
    ensures { OnOk result (string_bytes out.new ≡ string_bytes out.old ++ escaped_text text.now) }
{
    for c in text.chars() {
        push_printed(out, c)?;
    }
    Ok(())
}

fn push_printed(out: &mut String, c: char) -> Result<(), AllocError>
    ensures { OnOk result (string_bytes out.new ≡ string_bytes out.old ++ printed c) }
{
    if c < ' ' || c == '\u{7f}' || c == '\\' {
        out.push_str("\\u")?;
        push_hexadecimal(out, c as u32)
    } else {
        out.push(c)
    }
}

fn push_hexadecimal(out: &mut String, code: u32) -> Result<(), AllocError>
    ensures { OnOk result (string_bytes out.new ≡ string_bytes out.old ++ hexadecimal code) }
{
    push_digit(out, code / 4096 % 16)?;
    push_digit(out, code / 256 % 16)?;
    push_digit(out, code / 16 % 16)?;
    push_digit(out, code % 16)
}

fn push_digit(out: &mut String, digit: u32) -> Result<(), AllocError>
    requires { digit < 16 }
    ensures { OnOk result (string_bytes out.new ≡ string_bytes out.old ++ digit_char digit ∷ []) }
{
    out.push(char::from_digit(digit, 16).unwrap())
}
