//! Tests of `graph` over one file: its texts, its words and its faults.
use crate::applications::applications_hold;
use crate::bench::{bench_over, check_run};
use crate::rows::{RowKind, rows_hold};
use jam_base::List;
use std::alloc::Global;
use std::test::Fail;

#[test]
fn a_text_is_taken_or_refused_at_its_place(rt: HostRuntime) -> Result<(), Fail> {
    rows_hold(&rt, rt.alloc(), RowKind::Text, PLACES)
}

const PLACES: &str = r#"
# White space alone.
 ␍¶
f()
    jam: index.js:1:4: not in the profile
f();␍¶¶ g(; 
    jam: index.js:3:4: not in the profile
# A letter with an accent is a name, and a sign of a currency begins no token.
f(); é
    jam: index.js:1:7: not in the profile
f(); €
    jam: index.js:1:6: not in the profile
# Greek letters in a string.
require("./λόγος"); ?
    jam: index.js:1:21: not in the profile
"#;

// The mark U+FEFF in front goes, and only that one: the next one is white space.
#[test]
fn a_text_may_begin_with_a_mark(rt: HostRuntime) -> Result<(), Fail> {
    applications_hold(&rt, rt.alloc(), MARKS)
}

const MARKS: &str = "
application
file index.js
run 0 graph ./a/../index.js
file index.js \u{feff}f();
run 0 graph ./a/../index.js
file index.js \u{feff}f(
run 2 graph ./a/../index.js
    jam: index.js:1:3: not in the profile
file index.js \u{feff}\u{feff}
run 0 graph ./a/../index.js
file index.js \u{feff}\u{feff}?
run 2 graph ./a/../index.js
    jam: index.js:1:2: not in the profile
file index.js \u{feff}f(); function f() { }
run 0 graph index.js
    index.js:1:2 -> index.js:1:6 f
";

// Each byte that begins nothing is a character, and so is the front of one that breaks off.
#[test]
fn bytes_that_begin_nothing_are_characters(rt: HostRuntime) -> Result<(), Fail> {
    let alloc = rt.alloc();
    let first = "jam: index.js:1:1: not in the profile\n";
    let two = "jam: index.js:1:18: not in the profile\n";
    let one = "jam: index.js:1:17: not in the profile\n";
    let call = "index.js:1:11 -> index.js:1:15 f\n";
    let comment = b"/* \xff\xe2\x82 */ f(); function f() { }".as_slice();
    for (text, number, out, err) in [
        (b"\xff".as_slice(), 2, "", first),
        (b"require(\"./\xff\xff\");".as_slice(), 0, "", ""),
        (b"require(\"./\xff\xff\"); ?".as_slice(), 2, "", two),
        (b"require(\"./\xe2\x82\"); ?".as_slice(), 2, "", one),
        (comment, 0, call, ""),
    ] {
        let mut bench = bench_over(alloc, "index.js", text)?;
        check_run(&rt, alloc, &mut bench, "graph index.js", number, out, err)?;
    }
    Ok(())
}

#[test]
fn a_construct_is_refused_by_its_name(rt: HostRuntime) -> Result<(), Fail> {
    rows_hold(&rt, rt.alloc(), RowKind::Text, CONSTRUCTS)
}

const CONSTRUCTS: &str = r#"
eval("x");
    jam: index.js:1:1: eval
f();¶  eval /* x */ (g);
    jam: index.js:2:3: eval
with (a) b();
    jam: index.js:1:1: with
import x from "y";
    jam: index.js:1:1: import
f(import("x"));
    jam: index.js:1:3: import
// x¶export var a = 1;
    jam: index.js:2:1: export
# The words stand for other things too.
(0, eval)("x");
eval; a.eval("x"); a.with.import.export;
# A name that begins with a word is a name.
eval2 x;
    jam: index.js:1:7: not in the profile
"#;

#[test]
fn texts_are_taken_whatever_they_are_written_in(rt: HostRuntime) -> Result<(), Fail> {
    applications_hold(&rt, rt.alloc(), WRITTEN)
}

const WRITTEN: &str = "
application
# A comment in every gap.
file index.js /**/function/**/f/**/(/**/a/**/,/**/b/**/)/**/{/**/return/**/a/**/./**/g/**/(/**/b/**/)/**/;/**/}/**/¶/**/f/**/(/**/)/**/;//
run 0 graph index.js
    index.js:2:10 -> index.js:1:5 f
file index.js
    #!/usr/bin/env node
    f();
    function f() { }
run 0 graph index.js
    index.js:2:2 -> index.js:3:1 f
file index.js
    // a␍
    function f() { }␍
    f();␍
run 0 graph index.js
    index.js:3:2 -> index.js:2:1 f
file index.js // a\u{2028}function f() { }\u{2028}f();
run 0 graph index.js
    index.js:3:2 -> index.js:2:1 f
# Greek names, and one with U+200D.
file index.js function αβγ() { }¶αβγ();
run 0 graph index.js
    index.js:2:4 -> index.js:1:1 αβγ
file index.js function a\u{200d}b() { }¶a\u{200d}b();
run 0 graph index.js
    index.js:2:4 -> index.js:1:1 a\u{200d}b
# An escape in a string.
file a.js
file index.js require(\"\\x2e/a\");
run 0 graph index.js
    index.js:1:8 -> a.js:1:1 <module>
";

// A name in so many round brackets, as a statement.
fn nested(alloc: Global, count: u32) -> Result<String, Fail> {
    let mut text = String::new(alloc);
    for _ in 0..count {
        text.push_str("(")?;
    }
    text.push_str("x")?;
    for _ in 0..count {
        text.push_str(")")?;
    }
    text.push_str(";")?;
    Ok(text)
}

#[test]
fn brackets_may_nest_254_times(rt: HostRuntime) -> Result<(), Fail> {
    let alloc = rt.alloc();
    let refused = "jam: index.js:1:256: not in the profile\n";
    for (count, number, err) in [(254, 0, ""), (255, 2, refused)] {
        let text = nested(alloc, count)?;
        let mut bench = bench_over(alloc, "index.js", text.as_bytes())?;
        check_run(&rt, alloc, &mut bench, "graph index.js", number, "", err)?;
    }
    Ok(())
}

#[test]
fn an_entry_is_a_file_that_can_be_code(rt: HostRuntime) -> Result<(), Fail> {
    rows_hold(&rt, rt.alloc(), RowKind::Files, ENTRIES)
}

const ENTRIES: &str = r#"
index.js graph none.js
    jam: no entry
index.js graph ../index.js
    jam: no entry
index.js graph index.js/
    jam: no entry
index.js graph index.js/.
    jam: no entry
index.js graph ..
    jam: no entry
b/index.js graph .
    jam: no entry
b graph b/c/..
    jam: no entry
data.json graph data.json
    jam: no entry
addon.node graph addon.node
    jam: no entry
index.js graph index
index.js graph .
b/index.js graph b
"#;

#[test]
fn a_fault_at_the_entry_is_a_failed_read(rt: HostRuntime) -> Result<(), Fail> {
    applications_hold(&rt, rt.alloc(), FAULTS_AT_THE_ENTRY)
}

const FAULTS_AT_THE_ENTRY: &str = r#"
application
file index.js
calls 2 0 graph index.js
application
file a/index.js
calls 7 0 graph a
"#;

#[test]
fn words_are_canonical_or_a_usage(rt: HostRuntime) -> Result<(), Fail> {
    rows_hold(&rt, rt.alloc(), RowKind::Words, WORDS)
}

const WORDS: &str = r#"
graph a\b.js
    jam: a\u005cb.js:1:1: not in the profile
graph --skip-refused none.js
    jam: no entry
audit a
    jam: no lockfile
audit a --entry=-x --format=json --skip-refused
    jam: no lockfile
audit --format text --entry b a
    jam: no lockfile
# All others.
graph
    help
graph -x
    help
graph 
    help
graph index.js more
    help
graph --entry a b
    help
graph --skip-refused --skip-refused b
    help
graph --skip-refused=yes b
    help
audit
    help
audit a b
    help
audit a --entry
    help
audit a --entry=
    help
audit a --entry -b
    help
audit a --entry b --entry=c
    help
audit a --format xml
    help
audit a --format=json --format json
    help
audit a --formats json
    help
summary a
    help
--help
    help
"#;

#[test]
fn calls_have_edges_to_what_their_names_declare(rt: HostRuntime) -> Result<(), Fail> {
    rows_hold(&rt, rt.alloc(), RowKind::Text, DECLARED)
}

const DECLARED: &str = r#"
function f() { g(); }¶function g() { }¶f();¶
    index.js:1:17 -> index.js:2:1 g
    index.js:3:2 -> index.js:1:1 f
function f() { }¶function f() { }¶f();¶
    index.js:3:2 -> index.js:1:1 f
    index.js:3:2 -> index.js:2:1 f
function f() { }¶function g() {¶  function f() { }¶  f();¶}¶f();¶
    index.js:4:4 -> index.js:3:3 f
    index.js:6:2 -> index.js:1:1 f
g(); require(); exports(); setTimeout();¶function f() { arguments(); }¶
require();¶function require() { }¶
    index.js:1:8 -> index.js:2:1 require
require("./λ"); f();¶function f() { require("./λ"); f(); }¶
    index.js:1:18 -> index.js:2:1 f
    index.js:2:33 -> index.js:2:1 f
function f() { f(); }¶function g() { h(); }¶function h() { g(); }¶
    index.js:1:17 -> index.js:1:1 f
    index.js:2:17 -> index.js:3:1 h
    index.js:3:17 -> index.js:2:1 g
"#;

#[test]
fn calls_have_edges_to_what_comes_to_their_callee(rt: HostRuntime) -> Result<(), Fail> {
    rows_hold(&rt, rt.alloc(), RowKind::Text, FLOWING)
}

const FLOWING: &str = r#"
exports.go = function () { };¶exports.go();¶
    index.js:2:11 -> index.js:1:14 go
exports.f = function () { exports.g(); };¶exports.g = function () { };¶
    index.js:1:36 -> index.js:2:13 g
exports.forEach = function () { };¶a.forEach();¶
    index.js:2:10 -> index.js:1:19 forEach
function f() { }¶f.call();¶f.apply();¶f.bind();¶f.go();¶
    index.js:2:7 -> index.js:1:1 f
    index.js:3:8 -> index.js:1:1 f
    index.js:4:7 -> index.js:1:1 f
var a = require("./g");¶a.go();¶a();¶require("../b");¶var exports = require("./c");¶exports();¶
function f() { var g = require("./g"); g(); }¶function g() { }¶g();¶
    index.js:3:2 -> index.js:2:1 g
function require() { }¶var a = require("./a");¶
    index.js:2:16 -> index.js:1:1 require
"#;

#[test]
fn a_fault_ends_the_run_where_it_occurs(rt: HostRuntime) -> Result<(), Fail> {
    applications_hold(&rt, rt.alloc(), FAULTS)
}

const FAULTS: &str = r#"
application
file index.js
    function f() { g(); }
    function g() { }
    f();
calls 2 0 graph index.js
    index.js:1:17 -> index.js:2:1 g
    index.js:3:2 -> index.js:1:1 f
bytes graph index.js
    index.js:1:17 -> index.js:2:1 g
    index.js:3:2 -> index.js:1:1 f
"#;

#[test]
fn a_failing_error_output_changes_nothing_else(rt: HostRuntime) -> Result<(), Fail> {
    let alloc = rt.alloc();
    let edge = "index.js:2:2 -> index.js:1:1 f\n";
    for (line, failing, room, number, out) in [
        ("graph index.js", 0, 99, 0, edge),
        ("graph none.js", 0, 99, 2, ""),
        ("graph index.js", 1, 99, 3, ""),
        ("graph index.js", 0, 4, 4, "inde"),
        ("graph", 0, 99, 6, ""),
    ] {
        let mut bench = bench_over(alloc, "index.js", b"function f() { }\nf();\n")?;
        bench.folder.fail_at(List::of(vec![in alloc; failing]?));
        bench.out.fail_after(room);
        bench.err.fail_after(0);
        check_run(&rt, alloc, &mut bench, line, number, out, "")?;
    }
    Ok(())
}
