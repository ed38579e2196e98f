//! Bytes as the text that they are read as.
ghost use Rattle.std.specs.Prelude.{◌≡◌, IfOk, string_bytes, nat_eq, true, drop};
ghost use Rattle.std.specs.List.{starts_with};
ghost use Rattle.jam_base.specs.Source.{source_of, without_mark, mark};

use crate::{OutOfMemory, Text};
use std::alloc::Global;

/// The text of a source file, whatever its bytes (the Unicode Standard, 3.9): ill-formed UTF-8 becomes U+FFFD, and a
/// byte order mark at the front goes.
pub fn decode_source(alloc: Global, bytes: &[u8]) -> Result<Text, OutOfMemory>
    ensures { IfOk result (λ text. text ≡ source_of bytes.now) }
{
    let whole = String::from_utf8_lossy(alloc, bytes)?;
    unmarked(alloc, whole)
}

// The text without a byte order mark at the front; where there is none, it takes no memory.
fn unmarked(alloc: Global, whole: String) -> Result<Text, OutOfMemory>
    ensures { IfOk result (λ text. text ≡ without_mark (string_bytes whole)) }
{
    if begins_marked(whole.as_str()) {
        let text = Text::of(alloc, behind_mark(whole.as_str()))?;
        return Ok(text);
    }
    Ok(Text::from_string(whole))
}

// Whether the text begins with a byte order mark.
fn begins_marked(text: &str) -> bool
    ensures { result ≡ starts_with nat_eq text.now mark }
{
    text.as_bytes().starts_with(&[0xef, 0xbb, 0xbf])
}

// The text behind a byte order mark.
fn behind_mark(text: &str) -> &str
    requires { starts_with nat_eq text.now mark ≡ true }
    ensures { result.now ≡ drop 3 text.now }
{
    &text[3..]
}
