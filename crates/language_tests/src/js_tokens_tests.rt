//! What texts give, one token at a time.
use js_tokens::{Goal, LexFault, Lexer, TokenFault, TokenReader, Unclosed};
use js_tree::{TokenClass, TokenKind};
use std::process::Abort;
use std::test::Fail;

// The next token of the text is of the class and has these characters.
fn gives(rt: &impl Abort, text: &str, goal: Goal, class: TokenClass, want: &str) {
    assert!(rt; text.len() < 1000);
    let lexer = Lexer::new(text);
    match lexer.peek(goal) {
        Ok(raw) => {
            assert!(rt; raw.class == class, "the class at {text}");
            assert!(rt; raw.text == want, "{text} gives {}", raw.text);
        }
        Err(_) => {
            panic!(rt; "no token in {text}");
        }
    }
}

// The text is refused so.
fn refuses(rt: &impl Abort, text: &str, goal: Goal, want: LexFault) {
    assert!(rt; text.len() < 1000);
    let lexer = Lexer::new(text);
    match lexer.peek(goal) {
        Ok(raw) => {
            panic!(rt; "{text} gives {}", raw.text);
        }
        Err(fault) => {
            assert!(rt; fault == want, "the fault of {text}");
        }
    }
}

#[test]
fn numbers(rt: HostRuntime) -> Result<(), Fail> {
    for (text, want) in [
        ("0", "0"),
        ("010.x", "010"),
        ("1.e5+", "1.e5"),
        ("1.", "1."),
        (".5e-3;", ".5e-3"),
        ("0XfF)", "0XfF"),
        ("0b101 ", "0b101"),
        ("0o17", "0o17"),
        ("08.5", "08"),
        ("1..x", "1."),
        ("12e10", "12e10"),
    ] {
        gives(&rt, text, Goal::Operand, TokenClass::Number, want);
    }
    for text in [
        "3a", "0x", "0b12", "1_0", "1n", "1e", "1e+", "1.e", "0xg", "3é",
    ] {
        refuses(&rt, text, Goal::Operand, LexFault::Char { at: 0 });
    }
    Ok(())
}

#[test]
fn marks(rt: HostRuntime) -> Result<(), Fail> {
    for (text, want) in [
        (">>>=a", ">>>="),
        (">>>a", ">>>"),
        ("**=", "**="),
        ("...a", "..."),
        ("..a", "."),
        (".a", "."),
        ("=>", "=>"),
        ("!==", "!=="),
        ("<!-", "<"),
        ("/=2", "/="),
        ("a", ""),
        ("}c", "}"),
        ("?.", "?"),
    ] {
        if !want.is_empty() {
            gives(&rt, text, Goal::Operator, TokenClass::Punct, want);
        }
    }
    gives(&rt, "a -->", Goal::Operand, TokenClass::Name, "a");
    for text in ["<!-- a", "-->", "@", "#", "\\u0061"] {
        refuses(&rt, text, Goal::Operand, LexFault::Char { at: 0 });
    }
    refuses(&rt, "/* */ -->", Goal::Operator, LexFault::Char { at: 6 });
    Ok(())
}

#[test]
fn strings_and_templates(rt: HostRuntime) -> Result<(), Fail> {
    for (text, want) in [
        ("\"a\\u0041\" b", "\"a\\u0041\""),
        ("'\\\r\n'x", "'\\\r\n'"),
        ("'\\''", "'\\''"),
        ("'\u{2028}'", "'\u{2028}'"),
        ("'\\u{10FFFF}'", "'\\u{10FFFF}'"),
    ] {
        gives(&rt, text, Goal::Operand, TokenClass::Str, want);
    }
    for text in ["\"a", "'a\n'", "'\\", "\"'"] {
        refuses(
            &rt,
            text,
            Goal::Operand,
            LexFault::Unclosed {
                at: 0,
                what: Unclosed::String,
            },
        );
    }
    for text in ["'\\x4'", "'\\u{}'", "'\\u{110000}'", "'\\u12'"] {
        refuses(&rt, text, Goal::Operand, LexFault::Char { at: 0 });
    }
    gives(
        &rt,
        "`a${ {b:1} }c`",
        Goal::Operand,
        TokenClass::TemplateHead,
        "`a${",
    );
    gives(&rt, "}c`", Goal::Template, TokenClass::TemplateTail, "}c`");
    gives(
        &rt,
        "}c${",
        Goal::Template,
        TokenClass::TemplateMiddle,
        "}c${",
    );
    gives(
        &rt,
        "`\\`$\n`",
        Goal::Operand,
        TokenClass::TemplateWhole,
        "`\\`$\n`",
    );
    refuses(
        &rt,
        "`a",
        Goal::Operand,
        LexFault::Unclosed {
            at: 0,
            what: Unclosed::Template,
        },
    );
    Ok(())
}

#[test]
fn regular_expressions(rt: HostRuntime) -> Result<(), Fail> {
    for (text, want) in [
        ("/a[/]b/g;", "/a[/]b/g"),
        ("/\\//", "/\\//"),
        ("/[\\]/]/é", "/[\\]/]/é"),
    ] {
        gives(&rt, text, Goal::Operand, TokenClass::Regex, want);
    }
    gives(&rt, "/a/", Goal::Operator, TokenClass::Punct, "/");
    for text in ["/a", "/a\n/", "/a\u{2028}/", "/[/", "/"] {
        refuses(
            &rt,
            text,
            Goal::Operand,
            LexFault::Unclosed {
                at: 0,
                what: Unclosed::Regex,
            },
        );
    }
    Ok(())
}

#[test]
fn trivia_and_names(rt: HostRuntime) -> Result<(), Fail> {
    for (text, want) in [
        ("#!x\nab", "ab"),
        ("\u{feff}\u{3000}a\u{200d}b c", "a\u{200d}b"),
        ("// x\u{2028}λόγος+", "λόγος"),
        ("/* * / **/имя", "имя"),
        ("$_1", "$_1"),
        ("名前。", "名前"),
        ("functionx", "functionx"),
    ] {
        gives(&rt, text, Goal::Operand, TokenClass::Name, want);
    }
    gives(
        &rt,
        "function x",
        Goal::Operand,
        TokenClass::Word,
        "function",
    );
    gives(&rt, "  // x", Goal::Operand, TokenClass::End, "");
    refuses(
        &rt,
        " /* x",
        Goal::Operator,
        LexFault::Unclosed {
            at: 1,
            what: Unclosed::Comment,
        },
    );
    refuses(&rt, " #!x", Goal::Operand, LexFault::Char { at: 1 });
    Ok(())
}

#[test]
fn tokens_are_taken_in_turn(rt: HostRuntime) -> Result<(), Fail> {
    let mut lexer = Lexer::new("a\n/* */ = 'b' ;3a");
    let first = lexer.take(rt.alloc(), Goal::Operand)?;
    assert!(rt; first.text.as_str() == "a" && first.start == 0 && !first.nl_before);
    let second = lexer.take(rt.alloc(), Goal::Operator)?;
    assert!(rt; second.text.as_str() == "=" && second.start == 8 && second.nl_before);
    let third = lexer.take(rt.alloc(), Goal::Operand)?;
    assert!(rt; third.text.as_str() == "'b'" && third.start == 10);
    let fourth = lexer.take(rt.alloc(), Goal::Operator)?;
    assert!(rt; fourth.class == TokenClass::Punct && fourth.start == 14);
    assert!(rt; lexer.take(rt.alloc(), Goal::Operand).is_err());
    match lexer.peek(Goal::Operand) {
        Ok(_) => {
            panic!(rt; "a number before a letter");
        }
        Err(fault) => {
            assert!(rt; fault == LexFault::Char { at: 15 });
        }
    }
    Ok(())
}

// The kind of the next token.
fn is_kind(rt: &impl Abort, reader: &TokenReader<'_>, want: TokenKind) {
    let kind = reader.kind();
    assert!(rt; kind == want, "{kind:?} in place of {want:?}");
}

#[test]
fn the_next_token_is_held(rt: HostRuntime) -> Result<(), Fail> {
    let alloc = rt.alloc();
    let mut reader = TokenReader::new("a\n= /b/g + `c${ d }e`; typeof");
    is_kind(&rt, &reader, TokenKind::Name);
    let name = reader.take(alloc, Goal::Operand)?;
    assert!(rt; name.text.as_str() == "a" && !reader.is_at_end());
    is_kind(&rt, &reader, TokenKind::Assign);
    assert!(rt; reader.nl_before() && reader.start() == 2);
    reader.take(alloc, Goal::Operator)?;
    is_kind(&rt, &reader, TokenKind::Slash);
    let pattern = reader.take(alloc, Goal::Operand)?;
    assert!(rt; pattern.class == TokenClass::Regex && pattern.text.as_str() == "/b/g");
    reader.take(alloc, Goal::Operator)?;
    is_kind(&rt, &reader, TokenKind::TemplateHead);
    reader.take(alloc, Goal::Operand)?;
    reader.take(alloc, Goal::Operand)?;
    is_kind(&rt, &reader, TokenKind::RightBrace);
    let tail = reader.take(alloc, Goal::Template)?;
    assert!(rt; tail.text.as_str() == "}e`");
    reader.take(alloc, Goal::Operator)?;
    is_kind(&rt, &reader, TokenKind::Typeof);
    reader.take(alloc, Goal::Operand)?;
    is_kind(&rt, &reader, TokenKind::End);
    assert!(rt; reader.is_at_end());
    match reader.take(alloc, Goal::Operand) {
        Ok(_) => {
            panic!(rt; "a token behind the text");
        }
        Err(fault) => {
            assert!(rt; fault == TokenFault::Unexpected { at: 29 });
        }
    }
    Ok(())
}

#[test]
fn each_word_and_mark_has_its_kind(rt: HostRuntime) -> Result<(), Fail> {
    for (text, want) in [
        ("break", TokenKind::Break),
        ("with", TokenKind::With),
        ("instanceof", TokenKind::Instanceof),
        ("in", TokenKind::In),
        ("let", TokenKind::Let),
        ("of", TokenKind::Name),
        ("breaks", TokenKind::Name),
        ("Break", TokenKind::Name),
        ("{", TokenKind::LeftBrace),
        (">>>=", TokenKind::UnsignedShiftAssign),
        ("=>", TokenKind::Arrow),
        ("...", TokenKind::Dots),
        ("1", TokenKind::Number),
        ("''", TokenKind::Str),
        ("``", TokenKind::TemplateWhole),
        ("@", TokenKind::End),
        ("", TokenKind::End),
    ] {
        is_kind(&rt, &TokenReader::new(text), want);
    }
    Ok(())
}
