//! Tests of requires and entries over files without packages.
use crate::tables::{RowKind, rows_hold};
use jam_base::{List, MemFolder, ModulePath};
use node_resolve::{ResolveFault, Target, entry_of, resolve};
use std::alloc::{AllocError, Global};
use std::test::Fail;

#[test]
fn a_relative_text_leads_to_the_first_file(rt: HostRuntime) -> Result<(), Fail> {
    rows_hold(&rt, rt.alloc(), RowKind::File, FILES)
}

const FILES: &str = r#"
# The file at the path itself, then with each extension, then the index of the folder.
a a.js a.json a.node a/index.js | m.js | ./a ⇒ a
a.js a.json a.node a/index.js | m.js | ./a ⇒ a.js
a.json a.node a/index.js | m.js | ./a ⇒ no code a.json
a.node a/index.js | m.js | ./a ⇒ no code a.node
a/index.js a/index.json a/index.node | m.js | ./a ⇒ a/index.js
a/index.json a/index.node | m.js | ./a ⇒ no code a/index.json
a/index.node | m.js | ./a ⇒ no code a/index.node
a/b.js | m.js | ./a ⇒ missing
a.js.js a.js.json | m.js | ./a.js ⇒ a.js.js
# A folder and a file of one name.
a/index.js a | m.js | ./a/ ⇒ a/index.js
a a.js | m.js | ./a/ ⇒ missing
a/b/index.js a/b.js | m.js | ./a/b ⇒ a/b.js
# Texts that name a folder.
a/index.js a.js | a/m.js | .. ⇒ missing
index.js a.js | a/m.js | .. ⇒ index.js
a/index.js a.js | a/m.js | . ⇒ a/index.js
a/index.js a.js | a/m.js | ./ ⇒ a/index.js
a/index.js a.js | b/m.js | ../a/. ⇒ a/index.js
a/index.js a.js | b/m.js | ../a/c/.. ⇒ a/index.js
a/index.js a.js | b/m.js | ../a ⇒ a.js
# The application folder is no file, and nothing above it is looked at.
.js .json index.json | m.js | ./ ⇒ no code index.json
.js .json | a/m.js | ./.. ⇒ missing
a.js | m.js | ../a ⇒ missing
a.js | b/m.js | ../../a ⇒ missing
a.js | m.js | ./b/../../a ⇒ missing
# Other texts.
a.js | m.js | ∅ ⇒ missing
a.js | m.js | .//a ⇒ a.js
a.js | m.js | ./a␀ ⇒ missing
a.js | m.js | /a ⇒ missing
a.js | m.js | a ⇒ missing
.a.js | m.js | .a ⇒ missing
..a.js | m.js | ./..a ⇒ ..a.js
index.js | m.js | fs ⇒ core
index.js | m.js | #a ⇒ missing
index.js | ∅ | ./index ⇒ index.js
"#;

// The target of a text in the module at a path, over a folder with these files: `FILES | MODULE | TEXT`.
pub(crate) fn file_answer(alloc: Global, row: &str) -> Result<String, Fail> {
    let (files, rest) = row.split_once(" | ").ok_or("files")?;
    let (from, spec) = rest.split_once(" | ").ok_or("a module")?;
    let mut folder = folder_of(alloc, files)?;
    let from = ModulePath::read(alloc, from)?.ok_or("from")?;
    Ok(target_text(alloc, &resolve(alloc, &mut folder, &from, spec)?)?)
}

#[test]
fn an_entry_is_named_from_the_application_folder(rt: HostRuntime) -> Result<(), Fail> {
    rows_hold(&rt, rt.alloc(), RowKind::Entry, ENTRIES)
}

const ENTRIES: &str = r#"
index.js a.js ⇒ index.js
a.js ⇒ missing
a.js | a.js ⇒ a.js
a.js | a ⇒ a.js
a.js | /a ⇒ a.js
a/index.js | a ⇒ a/index.js
index.js | ∅ ⇒ index.js
index.js | . ⇒ index.js
index.js | .. ⇒ missing
a.json | a ⇒ no code a.json
"#;

// The target of an entry, over a folder with these files: `FILES | ENTRY`, or `FILES` where none is named.
pub(crate) fn entry_answer(alloc: Global, row: &str) -> Result<String, Fail> {
    let (files, entry) = match row.split_once(" | ") {
        Some((files, entry)) => (files, Some(entry)),
        None => (row, None),
    };
    let mut folder = folder_of(alloc, files)?;
    Ok(target_text(alloc, &entry_of(alloc, &mut folder, entry)?)?)
}

// A target as text: its path, with a mark before one that is no code.
pub(crate) fn target_text(alloc: Global, target: &Target) -> Result<String, AllocError> {
    let mut text = String::new(alloc);
    match target {
        Target::Module(path) => text.push_str(path.as_str())?,
        Target::NotCode(path) => {
            text.push_str("no code ")?;
            text.push_str(path.as_str())?;
        }
        Target::Core => text.push_str("core")?,
        Target::Missing => text.push_str("missing")?,
    }
    Ok(text)
}

// A folder with empty files at these paths, which stand between spaces.
fn folder_of(alloc: Global, files: &str) -> Result<MemFolder, Fail> {
    let mut folder = MemFolder::new(alloc);
    for file in files.split(' ') {
        add(alloc, &mut folder, file, "")?;
    }
    Ok(folder)
}

// Adds a file with this text.
pub(crate) fn add(
    alloc: Global,
    folder: &mut MemFolder,
    file: &str,
    text: &str,
) -> Result<(), Fail> {
    let path = ModulePath::read(alloc, file)?.ok_or("file")?;
    folder.add(path, text.as_bytes().to_vec(alloc)?)?;
    Ok(())
}

// Whether a folder whose call with this number fails gives a fault for `./a`, which its sixth call finds.
fn fails(alloc: Global, failing: u64) -> Result<bool, Fail> {
    let mut folder = folder_of(alloc, "a/index.js")?;
    folder.fail_at(List::of(vec![in alloc; failing]?));
    let from = ModulePath::read(alloc, "m.js")?.ok_or("from")?;
    Ok(resolve(alloc, &mut folder, &from, "./a") == Err(ResolveFault::ReadFault))
}

#[test]
fn a_failed_call_is_no_absent_file(rt: HostRuntime) -> Result<(), Fail> {
    let alloc = rt.alloc();
    for failing in 1..7 {
        assert!(rt; fails(alloc, failing)?, "{failing}");
    }
    assert!(rt; !fails(alloc, 7)?);
    Ok(())
}
