//! The table of words, which are no names (ECMA-262, 11.6.2).
ghost use Rattle.std.specs.Prelude.{◌≡◌, ◌<◌, ◌≤◌, ◌-◌, ◌+◌, length, map, take, drop, slice_index};
ghost use Rattle.std.specs.Str.{bytes_eq};
ghost use Rattle.js_tree.specs.Lexing as spec;
ghost use Rattle.js_tokens.specs.Words.{IsSpan};

/// The words, in the order of the alphabet.
const WORDS: [&[u8]; 37] = [
    b"break",
    b"case",
    b"catch",
    b"class",
    b"const",
    b"continue",
    b"debugger",
    b"default",
    b"delete",
    b"do",
    b"else",
    b"enum",
    b"export",
    b"extends",
    b"false",
    b"finally",
    b"for",
    b"function",
    b"if",
    b"import",
    b"in",
    b"instanceof",
    b"let",
    b"new",
    b"null",
    b"return",
    b"super",
    b"switch",
    b"this",
    b"throw",
    b"true",
    b"try",
    b"typeof",
    b"var",
    b"void",
    b"while",
    b"with",
];

/// How many words begin with a letter before each of `a` to `z`, and in the last place all of them.
const FIRSTS: [u8; 27] = [
    0, 0, 1, 6, 10, 14, 18, 18, 18, 22, 22, 22, 23, 23, 25, 25, 25, 25, 26, 28, 33, 33, 35, 37, 37,
    37, 37,
];

fn are_same(a: &[u8], b: &[u8]) -> bool
    ensures { result ≡ bytes_eq a.now b.now }
{
    a == b
}

fn place_in(mut list: &[&[u8]], text: &[u8]) -> usize
    ensures { result ≡ spec.place_in (map (λ word. word.now) list.entry.now) text.now }
{
    let mut place = 0;
    'words: while let [word, others @ ..] = list {
        if are_same(word, text) {
            return place;
        }
        list = others;
        place += 1;
    }
    place
}

// The words that begin with one letter: the place of the first, and the place behind the last.
#[derive(Clone, Copy)]
struct Span {
    from: usize,
    to: usize,
}

// The words that begin with the letter.
fn words_of(letter: u8) -> Span
    requires low { 97 ≤ letter }
    requires high { letter ≤ 122 }
    ensures span { IsSpan letter result.from result.to }
    ensures order { result.from ≤ result.to }
    ensures end { result.to ≤ 37 }
{
    let place = (letter - b'a') as usize;
    Span {
        from: FIRSTS[place] as usize,
        to: FIRSTS[place + 1] as usize,
    }
}

// The place of the text among the words of the list that stand in the span.
fn place_between(list: &[&[u8]], span: Span, text: &[u8]) -> usize
    requires order { span.from ≤ span.to }
    requires end { span.to ≤ length list.now }
    ensures { result ≡ spec.place_in (take (span.to - span.from) (drop span.from (map (λ word. word.now) list.now))) text.now }
{
    let words = &list[span.from..span.to];
    place_in(words, text)
}

// The place of the text in the table, where it begins with the letter.
fn place_by_letter(text: &[u8], letter: u8) -> usize
    requires first { letter ≡ slice_index text.now 0 }
    requires some { 0 < length text.now }
    requires low { 97 ≤ letter }
    requires high { letter ≤ 122 }
    ensures { result ≡ spec.place_in spec.words text.now }
{
    let span = words_of(letter);
    let place = place_between(&WORDS, span, text);
    if place < span.to - span.from {
        return span.from + place;
    }
    WORDS.len()
}

/// The place of the text in the table of words, or the number of words where it isn't there.
pub fn word_place(text: &[u8]) -> usize
    ensures { result ≡ spec.place_in spec.words text.now }
{
    if text.is_empty() {
        return WORDS.len();
    }
    let first = text[0];
    if first < b'a' || first > b'z' {
        return WORDS.len();
    }
    place_by_letter(text, first)
}

/// Whether the text is in the table of words.
pub fn is_word(text: &[u8]) -> bool
    ensures { result ≡ spec.is_word text.now }
{
    word_place(text) < WORDS.len()
}
