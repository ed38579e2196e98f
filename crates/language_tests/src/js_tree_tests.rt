//! The values of strings, the tokens of a tree, levels and targets.
use crate::js_parser_tests::read;
use jam_base::{OutOfMemory, Text};
use js_tree::{Expr, Level, Stmt, Token, TokenClass, admits, is_target, spell, string_value};
use std::alloc::Global;
use std::process::Abort;
use std::test::Fail;

fn token(alloc: Global, text: &str, class: TokenClass, start: u32) -> Result<Token, OutOfMemory> {
    Ok(Token {
        text: Text::of(alloc, text)?,
        start,
        class,
        nl_before: false,
    })
}

// The string has this value.
fn stands_for(rt: &impl Abort, alloc: Global, text: &str, want: &str) -> Result<(), Fail> {
    let token = token(alloc, text, TokenClass::Str, 0)?;
    match string_value(alloc, &token)? {
        Some(value) => {
            assert!(rt;
                value.as_str() == want,
                "{text} stands for {}",
                value.as_str()
            );
        }
        None => {
            panic!(rt; "{text} has no value");
        }
    }
    Ok(())
}

// The string has no value.
fn stands_for_none(rt: &impl Abort, alloc: Global, text: &str) -> Result<(), Fail> {
    let token = token(alloc, text, TokenClass::Str, 0)?;
    assert!(rt;
        string_value(alloc, &token)?.is_none(),
        "{text} has a value"
    );
    Ok(())
}

#[test]
fn characters_and_single_escapes(rt: HostRuntime) -> Result<(), Fail> {
    let alloc = rt.alloc();
    for (text, want) in [
        ("\"\"", ""),
        ("'a\"b'", "a\"b"),
        (
            "\"é\u{2028}\u{2029}\u{1f600}\"",
            "é\u{2028}\u{2029}\u{1f600}",
        ),
        ("'\\b\\t\\n\\v\\f\\r'", "\u{8}\t\n\u{b}\u{c}\r"),
        ("'\\'\\\"\\\\\\a\\é\\\u{1f600}'", "'\"\\aé\u{1f600}"),
        ("'\\0'", "\u{0}"),
        ("'\\0a\\0\\0'", "\u{0}a\u{0}\u{0}"),
        ("'\\0\\\n7'", "\u{0}7"),
    ] {
        stands_for(&rt, alloc, text, want)?;
    }
    Ok(())
}

#[test]
fn line_continuations(rt: HostRuntime) -> Result<(), Fail> {
    let alloc = rt.alloc();
    for (text, want) in [
        ("'a\\\nb'", "ab"),
        ("'a\\\rb'", "ab"),
        ("'a\\\r\nb'", "ab"),
        ("'a\\\u{2028}b'", "ab"),
        ("'a\\\u{2029}b'", "ab"),
        ("'\\\n'", ""),
        ("'\\\r\\\n\\n'", "\n"),
    ] {
        stands_for(&rt, alloc, text, want)?;
    }
    Ok(())
}

#[test]
fn numbered_escapes(rt: HostRuntime) -> Result<(), Fail> {
    let alloc = rt.alloc();
    for (text, want) in [
        ("\"a\\u0041\"", "aA"),
        ("'\\x41\\xfF\\x00'", "A\u{ff}\u{0}"),
        ("'\\u{1F600}\\u{41}\\u{000000041}'", "\u{1f600}AA"),
        ("'\\u{10ffff}\\uFFFF'", "\u{10ffff}\u{ffff}"),
    ] {
        stands_for(&rt, alloc, text, want)?;
    }
    Ok(())
}

#[test]
fn surrogates(rt: HostRuntime) -> Result<(), Fail> {
    let alloc = rt.alloc();
    for text in [
        "\"\\uD83D\\uDE00\"",
        "\"\\uD83D\\\n\\uDE00\"",
        "\"\\u{D83D}\\uDE00\"",
        "\"\\uD83D\\\r\n\\u{0de00}\"",
    ] {
        stands_for(&rt, alloc, text, "\u{1f600}")?;
    }
    for text in [
        "\"\\uD800\"",
        "'\\uDE00'",
        "'\\uDE00\\uD83D'",
        "'\\uD83Da\\uDE00'",
        "'\\uD83D\\uD83D\\uDE00'",
        "'\\uD83D\\u{1F600}'",
        "'\\u{d800}'",
    ] {
        stands_for_none(&rt, alloc, text)?;
    }
    Ok(())
}

#[test]
fn octal_escapes_have_no_value(rt: HostRuntime) -> Result<(), Fail> {
    let alloc = rt.alloc();
    for text in [
        "\"\\07\"",
        "\"\\8\"",
        "'\\9'",
        "'\\1'",
        "'a\\00'",
        "'\\08'",
        "'\\x41\\7b'",
    ] {
        stands_for_none(&rt, alloc, text)?;
    }
    Ok(())
}

#[test]
fn a_tree_spells_its_tokens(rt: HostRuntime) -> Result<(), Fail> {
    let alloc = rt.alloc();
    for text in [
        "",
        "new a . b ( s , ... t ) [ i ] `a${ b }c` ( s , ... t ) ;",
        "function f ( a , b ) { return c ? d + e : f ; var g , h = x ; }",
        "a = ( b , c ) || d ** - e ++ ; new . target ; this ; 'x' ; /y/ ;",
    ] {
        let tree = read(alloc, text)?;
        let tokens = spell(alloc, &tree)?;
        let mut spelled = String::new(alloc);
        let mut before = "";
        for token in tokens.as_slice() {
            spelled.push_str(before)?;
            spelled.push_str(token.text.as_str())?;
            before = " ";
        }
        assert_eq!(rt; spelled.as_str(), text);
    }
    Ok(())
}

// How many levels take the expression, from the weakest on.
fn reach(expr: &Expr) -> u32 {
    let levels = [
        Level::Comma,
        Level::Assign,
        Level::Binary,
        Level::Unary,
        Level::Postfix,
    ];
    let mut reach = 0u32;
    for level in levels {
        if admits(level, expr) {
            reach = reach.saturating_add(1u32);
        }
    }
    reach
}

#[test]
fn levels_take_expressions_and_some_are_targets(rt: HostRuntime) -> Result<(), Fail> {
    let alloc = rt.alloc();
    for (text, levels, target) in [
        ("a, b;", 1, false),
        ("a = b;", 2, false),
        ("a ? b : c;", 2, false),
        ("a || b;", 3, false),
        ("a ** b;", 3, false),
        ("-a;", 4, false),
        ("a++;", 5, false),
        ("new a.b();", 5, false),
        ("a.b();", 5, false),
        ("a.b;", 5, true),
        ("((a.b));", 5, true),
        ("(a);", 5, true),
        ("a;", 5, true),
        ("(-a);", 5, false),
        ("(a, b);", 5, false),
    ] {
        let tree = read(alloc, text)?;
        for statement in tree.body.as_slice() {
            let Stmt::Plain { value, .. } = statement else {
                return Err(Fail::from("no expression"));
            };
            let expr = value.get();
            assert_eq!(rt; reach(expr), levels, "{text}");
            assert_eq!(rt; is_target(expr), target, "{text}");
        }
    }
    Ok(())
}
