//! Tests of loading: rounds of modules, bad modules, limits and faults.
use crate::applications::applications_hold;
use crate::bench::{Bench, add, bench_over, check_run, empty_bench, status_of};
use jam_base::{List, Text};
use std::alloc::Global;
use std::test::Fail;

#[test]
fn modules_are_loaded_from_round_to_round(rt: HostRuntime) -> Result<(), Fail> {
    applications_hold(&rt, rt.alloc(), ROUNDS)
}

const ROUNDS: &str = r#"
application
file index.js require("./b");
file c.js
file a/e.js require("../c");
file f.json ?
file λ.js
# A cycle, a module that is required twice, targets that aren't there, and one above the folder.
file b.js require("./index"); require("./c");
run 0 graph index.js
    b.js:1:8 -> index.js:1:1 <module>
    b.js:1:28 -> c.js:1:1 <module>
    index.js:1:8 -> b.js:1:1 <module>
file b.js require("./c"); require("./c.js"); require("./b");
run 0 graph index.js
    b.js:1:8 -> c.js:1:1 <module>
    b.js:1:24 -> c.js:1:1 <module>
    b.js:1:43 -> b.js:1:1 <module>
    index.js:1:8 -> b.js:1:1 <module>
file b.js require("./d"); require("../c");
run 0 graph index.js
    index.js:1:8 -> b.js:1:1 <module>
# A name that is not ASCII.
file b.js require("./λ"); require("./c");
run 0 graph index.js
    b.js:1:8 -> λ.js:1:1 <module>
    b.js:1:24 -> c.js:1:1 <module>
    index.js:1:8 -> b.js:1:1 <module>
# The target of a require in a folder, and a file that is no code.
file b.js require("./a/e"); require("./f.json");
run 0 graph index.js
    a/e.js:1:8 -> c.js:1:1 <module>
    b.js:1:8 -> a/e.js:1:1 <module>
    index.js:1:8 -> b.js:1:1 <module>
# Modules that require one another.
application
file index.js
    require("./a");
file a.js
    exports.x = 1; require("./b").y();
file b.js
    var a = require("./a"); require("./b");
    exports.y = function () { return a; };
run 0 graph index.js
    a.js:1:23 -> b.js:1:1 <module>
    a.js:1:32 -> b.js:2:13 y
    b.js:1:16 -> a.js:1:1 <module>
    b.js:1:32 -> b.js:1:1 <module>
    index.js:1:8 -> a.js:1:1 <module>
"#;

#[test]
fn the_first_bad_module_of_a_round_is_named(rt: HostRuntime) -> Result<(), Fail> {
    applications_hold(&rt, rt.alloc(), BAD_MODULES)
}

const BAD_MODULES: &str = r#"
application
file index.js require("./b");
file bad.js ¶  ?
file a/bad.js ?
# A module two rounds on has no tree.
file b.js require("./bad");
run 2 graph index.js
    jam: bad.js:2:3: not in the profile
# Of two in one round the first by its path is named.
file b.js require("./bad"); require("./a/bad");
run 2 graph index.js
    jam: a/bad.js:1:1: not in the profile
# A round comes before the modules that it requires.
file b.js require("./a/bad"); f(
run 2 graph index.js
    jam: b.js:1:23: not in the profile
"#;

#[test]
fn a_module_may_have_8388608_bytes(rt: HostRuntime) -> Result<(), Fail> {
    let alloc = rt.alloc();
    for (byte, length, number, out, err) in [
        (
            b' ',
            8_388_608,
            0,
            "index.js:1:8 -> b.js:1:1 <module>\n",
            "",
        ),
        (
            b' ',
            8_388_609,
            2,
            "",
            "jam: b.js: 8388609 bytes, more than 8388608\n",
        ),
        // A byte that begins nothing is a character of three bytes.
        (
            255,
            2_796_203,
            2,
            "",
            "jam: b.js: 8388609 bytes, more than 8388608\n",
        ),
    ] {
        let mut bench = bench_over(alloc, "index.js", b"require(\"./b\");")?;
        let text = vec![in alloc; byte; length]?;
        add(alloc, &mut bench, "b.js", text.as_slice())?;
        check_run(&rt, alloc, &mut bench, "graph index.js", number, out, err)?;
    }
    Ok(())
}

// An entry that requires so many modules, each an empty file.
fn many(alloc: Global, count: u32) -> Result<Bench, Fail> {
    let mut bench = empty_bench(alloc);
    let mut text = String::new(alloc);
    for i in 1..=count {
        let line = format!(in alloc; "require(\"./m{i}\");\n")?;
        text.push_str(line.as_str())?;
        let path = format!(in alloc; "m{i}.js")?;
        add(alloc, &mut bench, path.as_str(), b"")?;
    }
    add(alloc, &mut bench, "index.js", text.as_bytes())?;
    Ok(bench)
}

// The call graph of such an application.
fn edges_of_many(alloc: Global, count: u32) -> Result<String, Fail> {
    let mut lines = String::new(alloc);
    for i in 1..=count {
        let line = format!(in alloc; "index.js:{i}:8 -> m{i}.js:1:1 <module>\n")?;
        lines.push_str(line.as_str())?;
    }
    Ok(lines)
}

#[test]
fn an_application_may_have_16384_modules(rt: HostRuntime) -> Result<(), Fail> {
    let alloc = rt.alloc();
    let refused = "jam: too many: 16385 modules, 332958 bytes\n";
    for (count, number, edges, err) in [(16_383, 0, 16_383, ""), (16_384, 2, 0, refused)] {
        let mut bench = many(alloc, count)?;
        let out = edges_of_many(alloc, edges)?;
        check_run(
            &rt,
            alloc,
            &mut bench,
            "graph index.js",
            number,
            out.as_str(),
            err,
        )?;
    }
    Ok(())
}

// The entry takes two calls of the folder, and each of its 16,384 requires two. Then 16,383 modules are
// read, and the next one is too many.
#[test]
fn a_module_that_is_too_many_is_not_read(rt: HostRuntime) -> Result<(), Fail> {
    let alloc = rt.alloc();
    for (failing, number) in [(49_153, 3), (49_154, 2)] {
        let mut bench = many(alloc, 16_384)?;
        bench.folder.fail_at(List::of(vec![in alloc; failing]?));
        let status = status_of(&rt, alloc, &mut bench, "graph index.js")?;
        assert_eq!(&rt; status.number(), number);
    }
    Ok(())
}

// An entry and so many modules, each of which requires the next one.
fn chain(alloc: Global, count: u32) -> Result<Bench, Fail> {
    let mut bench = empty_bench(alloc);
    let mut path = Text::of(alloc, "index.js")?;
    for i in 1..=count {
        let line = format!(in alloc; "require(\"./m{i}\");\n")?;
        add(alloc, &mut bench, path.as_str(), line.as_bytes())?;
        path = Text::from_string(format!(in alloc; "m{i}.js")?);
    }
    add(alloc, &mut bench, path.as_str(), b"")?;
    Ok(bench)
}

#[test]
fn rounds_may_follow_one_another_16384_times(rt: HostRuntime) -> Result<(), Fail> {
    let alloc = rt.alloc();
    let refused = "jam: too many: 16385 modules, 332958 bytes\n";
    for (count, number, edges, err) in [(16_383, 0, 16_383, ""), (16_384, 2, 0, refused)] {
        let mut bench = chain(alloc, count)?;
        let status = status_of(&rt, alloc, &mut bench, "graph index.js")?;
        let lines = bench.out.bytes().iter().filter(|b| **b == b'\n').count();
        assert_eq!(&rt; status.number(), number);
        assert_eq!(&rt; lines, edges);
        assert_eq!(&rt; bench.err.bytes(), err.as_bytes());
    }
    Ok(())
}

#[test]
fn a_fault_ends_the_loading(rt: HostRuntime) -> Result<(), Fail> {
    applications_hold(&rt, rt.alloc(), FAULTS)
}

const FAULTS: &str = r#"
# A module whose function another one calls.
application
file index.js
    var a = require("./a");
    a.go();
file a.js
    exports.go = function () { };
calls 5 0 graph index.js
    index.js:1:16 -> a.js:1:1 <module>
    index.js:2:5 -> a.js:1:14 go
bytes graph index.js
    index.js:1:16 -> a.js:1:1 <module>
    index.js:2:5 -> a.js:1:14 go
# Modules that require one another.
application
file index.js require("./b.js"); require("./a.js");
file a.js require("./b.js");
file b.js require("./index.js");
calls 8 0 graph index.js
    a.js:1:8 -> b.js:1:1 <module>
    b.js:1:8 -> index.js:1:1 <module>
    index.js:1:8 -> b.js:1:1 <module>
    index.js:1:27 -> a.js:1:1 <module>
"#;
