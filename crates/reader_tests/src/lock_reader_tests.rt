//! Tests of lockfiles.
use crate::tables::{RowKind, rows_hold};
use jam_base::ModulePath;
use lock_reader::{Lock, read_lock};
use std::alloc::{AllocError, Global};
use std::test::Fail;

#[test]
fn faults_come_in_order(rt: HostRuntime) -> Result<(), Fail> {
    rows_hold(&rt, rt.alloc(), RowKind::Lock, FAULTS)
}

const FAULTS: &str = r#"
[ ⇒ not JSON
∅ ⇒ not JSON
[] ⇒ wrong shape at ∅
{"packages":3} ⇒ wrong shape at lockfileVersion
{"lockfileVersion":"3"} ⇒ wrong shape at lockfileVersion
{"lockfileVersion":-1} ⇒ wrong shape at lockfileVersion
{"lockfileVersion":-0} ⇒ wrong shape at lockfileVersion
{"lockfileVersion":3.0} ⇒ wrong shape at lockfileVersion
{"lockfileVersion":2.5} ⇒ wrong shape at lockfileVersion
{"lockfileVersion":18446744073709551616} ⇒ wrong shape at lockfileVersion
{"lockfileVersion":1,"dependencies":{}} ⇒ lockfileVersion 1
{"lockfileVersion":18446744073709551615} ⇒ lockfileVersion 18446744073709551615
{"lockfileVersion":0,"packages":3} ⇒ lockfileVersion 0
{"lockfileVersion":3} ⇒ wrong shape at packages
{"lockfileVersion":2,"packages":[]} ⇒ wrong shape at packages
# The first bad location is told.
{"lockfileVersion":3,"packages":{"b":3,"a":[]}} ⇒ wrong shape at a
{"lockfileVersion":3,"packages":{"b":{},"a":{"name":3}}} ⇒ wrong shape at a
{"lockfileVersion":3,"packages":{"a":{},"b":{"version":null}}} ⇒ wrong shape at b
{"lockfileVersion":3,"packages":{"a":{}},"packages":{"c":1}} ⇒ wrong shape at c
{"lockfileVersion":3,"packages":{"é":1,"a/b":1,"a-b":1,"a":{}}} ⇒ wrong shape at a-b
{"lockfileVersion":3,"packages":{"é":1,"z":1}} ⇒ wrong shape at z
{"lockfileVersion":3,"packages":{"":[],"a":1}} ⇒ wrong shape at ∅
"#;

// The fault of a text, as it is printed.
pub(crate) fn lock_answer(alloc: Global, text: &str) -> Result<String, Fail> {
    match read_lock(alloc, text.as_bytes()) {
        Ok(_) => Err(Fail::from("no fault")),
        Err(fault) => Ok(format!(in alloc; "{fault}")?),
    }
}

#[test]
fn names_come_from_the_entry_or_its_location(rt: HostRuntime) -> Result<(), Fail> {
    let alloc = rt.alloc();
    let lock = read_lock(alloc, NAMED.as_bytes())?;
    let names = names_text(alloc, &lock)?;
    assert_eq!(rt; names.as_str(), NAMES);
    Ok(())
}

const NAMED: &str = r#"{"lockfileVersion":2,"packages":{
    "packages/w":{},
    "node_modules/d":{"name":"e"},
    "":{"name":"app"},
    "my_node_modules/x":{},
    "node_modules/@s/b":{},
    "node_modules/a/node_modules/c":{},
    "node_modules/a":5,
    "node_modules/a":{}}}"#;

const NAMES: &str = " is app
my_node_modules/x is x
node_modules/@s/b is @s/b
node_modules/a is a
node_modules/a/node_modules/c is c
node_modules/d is e
packages/w is \n";

// The location and the name of each entry.
fn names_text(alloc: Global, lock: &Lock) -> Result<String, AllocError> {
    let mut text = String::new(alloc);
    for entry in lock.entries.as_slice() {
        text.push_str(entry.location.as_str())?;
        text.push_str(" is ")?;
        text.push_str(entry.name.as_str())?;
        text.push('\n')?;
    }
    Ok(text)
}

#[test]
fn an_entry_has_its_version(rt: HostRuntime) -> Result<(), Fail> {
    let alloc = rt.alloc();
    let lock = read_lock(alloc, OWNING.as_bytes())?;
    let version = lock
        .entry("node_modules/a")
        .and_then(|e| e.version.as_ref());
    assert!(rt; version.map(|v| v.as_str()) == Some("1.1.0"));
    assert!(rt; lock.entry("node_modules/b").is_none());
    Ok(())
}

const OWNING: &str =
    r#"{"lockfileVersion":3,"packages":{"":{},"node_modules/a":{"version":"1.1.0"}}}"#;

#[test]
fn owners_are_the_nearest_packages(rt: HostRuntime) -> Result<(), Fail> {
    rows_hold(&rt, rt.alloc(), RowKind::Owner, OWNERS)
}

const OWNERS: &str = r#"
node_modules/a/x/y.js ⇒ node_modules/a
lib/z.js ⇒ ∅
node_modules/a/node_modules/b/x.js ⇒ none
node_modules/ab/x.js ⇒ none
node_modules_x/y.js ⇒ ∅
node_modules/a ⇒ none
"#;

// The location of the owner of a path.
pub(crate) fn owner_answer(alloc: Global, path: &str) -> Result<String, Fail> {
    owner_text(alloc, &read_lock(alloc, OWNING.as_bytes())?, path)
}

fn owner_text(alloc: Global, lock: &Lock, path: &str) -> Result<String, Fail> {
    let path = ModulePath::read(alloc, path)?.ok_or("a path")?;
    match lock.owner(&path) {
        Some(entry) => Ok(String::from_str(alloc, entry.location.as_str())?),
        None => Ok(String::from_str(alloc, "none")?),
    }
}

/// A lockfile with the application and 400 packages with one below each, in the shape that npm 10
/// writes.
fn large_lock(alloc: Global) -> Result<String, Fail> {
    let mut text = String::from_str(
        alloc,
        "{\"name\":\"app\",\"lockfileVersion\":3,\"requires\":true,\"packages\":{\"\":{\"name\":\"app\",\"version\":\"1.0.0\",\"dependencies\":{\"p1\":\"^1.0.0\"}}",
    )?;
    for i in 0..400u32 {
        text.push_str(&format!(in alloc;
            ",\"node_modules/p{i}/node_modules/@s/q\":{{\"version\":\"2.{i}.0\",\"dev\":true,\"license\":\"MIT\",\"peerDependencies\":{{\"p{i}\":\"*\"}}}}"
        )?)?;
        text.push_str(&format!(in alloc;
            ",\"node_modules/p{i}\":{{\"version\":\"1.{i}.0\",\"resolved\":\"https://registry.npmjs.org/p{i}/-/p{i}-1.{i}.0.tgz\",\"integrity\":\"sha512-Zm9v\",\"engines\":{{\"node\":\">=8\"}}}}"
        )?)?;
    }
    text.push_str("}}")?;
    Ok(text)
}

#[test]
fn a_large_lockfile_is_read(rt: HostRuntime) -> Result<(), Fail> {
    let alloc = rt.alloc();
    let lock = read_lock(alloc, large_lock(alloc)?.as_bytes())?;
    assert!(rt; lock.entries.as_slice().len() == 801);
    let nested = lock
        .entry("node_modules/p250/node_modules/@s/q")
        .ok_or("an entry")?;
    assert!(rt; nested.name.as_str() == "@s/q");
    assert!(rt; nested.version.as_ref().map(|v| v.as_str()) == Some("2.250.0"));
    let owner = owner_text(alloc, &lock, "node_modules/p250/node_modules/@s/q/lib/x.js")?;
    assert!(rt; owner.as_str() == "node_modules/p250/node_modules/@s/q");
    let owner = owner_text(alloc, &lock, "node_modules/p399/index.js")?;
    assert!(rt; owner.as_str() == "node_modules/p399");
    Ok(())
}
