//! Which mark or word a token is (ECMA-262, 11.6.2 and 11.7).
ghost use Rattle.std.specs.Prelude.{◌≡◌, true, slice_index_or};
ghost use Rattle.js_tree.specs.Lexing.{place_in, words};
ghost use Rattle.js_tree.specs.Lexical.Mark.{marks, is_mark};
ghost use Rattle.js_tree.specs.TokenKinds.{kind_of, mark_kinds, word_kinds};
ghost use Rattle.js_tokens.specs.Kinds.{MayBe};

use crate::reach::mark_len;
use crate::words::word_place;
use js_tree::{TokenClass, TokenKind};

/// The kinds of the table of marks, in its order.
const MARK_KINDS: [TokenKind; 52] = [
    TokenKind::LeftBrace,
    TokenKind::RightBrace,
    TokenKind::LeftParen,
    TokenKind::RightParen,
    TokenKind::LeftBracket,
    TokenKind::RightBracket,
    TokenKind::Dot,
    TokenKind::Dots,
    TokenKind::Semicolon,
    TokenKind::Comma,
    TokenKind::Less,
    TokenKind::Greater,
    TokenKind::LessEquals,
    TokenKind::GreaterEquals,
    TokenKind::Equals,
    TokenKind::NotEquals,
    TokenKind::StrictEquals,
    TokenKind::StrictNotEquals,
    TokenKind::Plus,
    TokenKind::Minus,
    TokenKind::Star,
    TokenKind::Slash,
    TokenKind::Percent,
    TokenKind::Stars,
    TokenKind::Increment,
    TokenKind::Decrement,
    TokenKind::LeftShift,
    TokenKind::RightShift,
    TokenKind::UnsignedShift,
    TokenKind::Ampersand,
    TokenKind::Bar,
    TokenKind::Caret,
    TokenKind::Not,
    TokenKind::Tilde,
    TokenKind::And,
    TokenKind::Or,
    TokenKind::Question,
    TokenKind::Colon,
    TokenKind::Assign,
    TokenKind::PlusAssign,
    TokenKind::MinusAssign,
    TokenKind::StarAssign,
    TokenKind::SlashAssign,
    TokenKind::PercentAssign,
    TokenKind::StarsAssign,
    TokenKind::LeftShiftAssign,
    TokenKind::RightShiftAssign,
    TokenKind::UnsignedShiftAssign,
    TokenKind::AmpersandAssign,
    TokenKind::BarAssign,
    TokenKind::CaretAssign,
    TokenKind::Arrow,
];

/// The kinds of the table of words, in its order.
const WORD_KINDS: [TokenKind; 37] = [
    TokenKind::Break,
    TokenKind::Case,
    TokenKind::Catch,
    TokenKind::Class,
    TokenKind::Const,
    TokenKind::Continue,
    TokenKind::Debugger,
    TokenKind::Default,
    TokenKind::Delete,
    TokenKind::Do,
    TokenKind::Else,
    TokenKind::Enum,
    TokenKind::Export,
    TokenKind::Extends,
    TokenKind::False,
    TokenKind::Finally,
    TokenKind::For,
    TokenKind::Function,
    TokenKind::If,
    TokenKind::Import,
    TokenKind::In,
    TokenKind::Instanceof,
    TokenKind::Let,
    TokenKind::New,
    TokenKind::Null,
    TokenKind::Return,
    TokenKind::Super,
    TokenKind::Switch,
    TokenKind::This,
    TokenKind::Throw,
    TokenKind::True,
    TokenKind::Try,
    TokenKind::Typeof,
    TokenKind::Var,
    TokenKind::Void,
    TokenKind::While,
    TokenKind::With,
];

// The kind at the place in the list, and `End` past it.
fn kind_at(kinds: &[TokenKind], place: usize) -> TokenKind
    ensures { result ≡ slice_index_or kinds.now place TokenKind.End }
{
    if place < kinds.len() {
        kinds[place]
    } else {
        TokenKind::End
    }
}

// The kind of a word.
fn word_kind(text: &[u8]) -> TokenKind
    ensures { result ≡ slice_index_or word_kinds (place_in words text.now) TokenKind.End }
{
    kind_at(&WORD_KINDS, word_place(text))
}

// The place of a mark in the table.
fn place_of_mark(text: &[u8]) -> usize
    requires { is_mark text.now ≡ true }
    ensures { result ≡ place_in marks text.now }
{
    mark_len(text).place as usize
}

// The kind of a mark.
fn mark_kind(text: &[u8]) -> TokenKind
    requires { is_mark text.now ≡ true }
    ensures { result ≡ slice_index_or mark_kinds (place_in marks text.now) TokenKind.End }
{
    kind_at(&MARK_KINDS, place_of_mark(text))
}

/// The kind of a token of the class with this text.
pub fn kind_of(class: TokenClass, text: &[u8]) -> TokenKind
    requires { MayBe class text.now }
    ensures { result ≡ kind_of class text.now }
{
    match class {
        TokenClass::Name => TokenKind::Name,
        TokenClass::Word => word_kind(text),
        TokenClass::Number => TokenKind::Number,
        TokenClass::Str => TokenKind::Str,
        TokenClass::TemplateWhole => TokenKind::TemplateWhole,
        TokenClass::TemplateHead => TokenKind::TemplateHead,
        TokenClass::TemplateMiddle => TokenKind::TemplateMiddle,
        TokenClass::TemplateTail => TokenKind::TemplateTail,
        TokenClass::Regex => TokenKind::Regex,
        TokenClass::Punct => mark_kind(text),
        TokenClass::End => TokenKind::End,
    }
}
