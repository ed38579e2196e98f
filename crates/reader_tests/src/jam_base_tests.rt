//! Tests of paths, places and the objects in memory.
use crate::tables::{RowKind, rows_hold};
use jam_base::{
    EntryName, Failed, Folder, Keeper, List, MemFolder, MemKeeper, MemSink, ModulePath, Sink,
    place_of, places_of,
};
use std::alloc::Global;
use std::test::Fail;

const NAME: &str = "e3b0c44298fc1c149afbf4c8996fb92427ae41e4649b934ca495991b7852b855";

#[test]
fn places_go_by_the_five_line_ends(rt: HostRuntime) -> Result<(), Fail> {
    rows_hold(&rt, rt.alloc(), RowKind::Place, PLACES)
}

const PLACES: &str = "
∅ @ 0 ⇒ 1:1
a¶b @ 1 ⇒ 1:2
a¶b @ 2 ⇒ 2:1
a␍b @ 2 ⇒ 2:1
a␍¶b @ 2 ⇒ 1:3
a␍¶b @ 3 ⇒ 2:1
␍␍¶¶ @ 1 ⇒ 2:1
␍␍¶¶ @ 4 ⇒ 4:1
a\u{2028}b @ 4 ⇒ 2:1
a\u{2029}bc @ 5 ⇒ 2:2
é\u{1f600}x @ 6 ⇒ 1:3
";

// The place of an offset in a text: `TEXT @ OFFSET`.
pub(crate) fn place_answer(alloc: Global, row: &str) -> Result<String, Fail> {
    let (text, offset) = row.split_once(" @ ").ok_or("an offset")?;
    let offset = offset.parse::<u32>().ok().ok_or("a number")?;
    if !text.is_char_boundary(offset as usize) || offset > 99 {
        return Err(Fail::from("an offset"));
    }
    let place = place_of(text, offset);
    if place.offset != offset {
        return Err(Fail::from("another offset"));
    }
    Ok(format!(in alloc; "{}:{}", place.line, place.column)?)
}

#[test]
fn places_are_found_in_any_order(rt: HostRuntime) -> Result<(), Fail> {
    let alloc = rt.alloc();
    let places = places_of(alloc, "ab\n\r\ncd\re", &[0, 1, 3, 5, 2, 2, 9, 8])?;
    let mut found = String::new(alloc);
    for place in places.iter() {
        let text = format!(in alloc; "{} {}:{}\n", place.offset, place.line, place.column)?;
        found.push_str(text.as_str())?;
    }
    assert_eq!(rt; found.as_str(), FOUND);
    Ok(())
}

const FOUND: &str = "\
0 1:1
1 1:2
3 2:1
5 3:1
2 1:3
2 1:3
9 4:2
8 4:1
";

#[test]
fn paths_are_read_in_normal_form(rt: HostRuntime) -> Result<(), Fail> {
    rows_hold(&rt, rt.alloc(), RowKind::Path, PATHS)
}

const PATHS: &str = r#"
a/./b/../c ⇒ a/c
../a ⇒ none
/a ⇒ none
∅ ⇒ ∅
./a/..// ⇒ ∅
a/../../b ⇒ none
a//b/ ⇒ a/b
... ⇒ ...
"#;

// The text of the path that a text names, or `none`.
pub(crate) fn path_answer(alloc: Global, text: &str) -> Result<String, Fail> {
    match ModulePath::read(alloc, text)? {
        Some(path) => Ok(String::from_str(alloc, path.copy(alloc)?.as_str())?),
        None => Ok(String::from_str(alloc, "none")?),
    }
}

#[test]
fn paths_are_joined_in_normal_form(rt: HostRuntime) -> Result<(), Fail> {
    rows_hold(&rt, rt.alloc(), RowKind::Join, JOINS)
}

const JOINS: &str = r#"
a/b | ∅ ⇒ a/b
a/b | .. ⇒ a
a/b | ./ ⇒ a/b
a/b | .//a ⇒ a/b/a
a/b | ../../c ⇒ c
a/b | ../.. ⇒ ∅
a/b | ../../.. ⇒ none
a/b | c/../../../../d ⇒ none
a/b | /c ⇒ none
∅ | a ⇒ a
∅ | .. ⇒ none
a | ␀ ⇒ a/␀
"#;

// The text of the path that a text names, begun at the path that another names, or `none`: `PATH | TEXT`.
pub(crate) fn join_answer(alloc: Global, row: &str) -> Result<String, Fail> {
    let (base, text) = row.split_once(" | ").ok_or("a path")?;
    let base = ModulePath::read(alloc, base)?.ok_or("base")?;
    match base.join(alloc, text)? {
        Some(path) => Ok(String::from_str(alloc, path.as_str())?),
        None => Ok(String::from_str(alloc, "none")?),
    }
}

#[test]
fn a_parent_lacks_the_last_part(rt: HostRuntime) -> Result<(), Fail> {
    rows_hold(&rt, rt.alloc(), RowKind::Parent, PARENTS)
}

const PARENTS: &str = r#"
a/b/c.js ⇒ a/b
a/b ⇒ a
a ⇒ ∅
∅ ⇒ ∅
"#;

// The text of the parent of the path that a text names.
pub(crate) fn parent_answer(alloc: Global, text: &str) -> Result<String, Fail> {
    let path = ModulePath::read(alloc, text)?.ok_or("path")?;
    Ok(String::from_str(alloc, path.parent(alloc)?.as_str())?)
}

#[test]
fn a_package_goes_by_the_last_node_modules(rt: HostRuntime) -> Result<(), Fail> {
    rows_hold(&rt, rt.alloc(), RowKind::Package, PACKAGES)
}

const PACKAGES: &str = r#"
node_modules/@s/p/x.js ⇒ node_modules/@s/p
node_modules/p/lib/x.js ⇒ node_modules/p
a/node_modules/p/node_modules/q/x.js ⇒ a/node_modules/p/node_modules/q
a/node_modules ⇒ a/node_modules
node_modules/@s ⇒ node_modules/@s
node_modules/p/node_modules ⇒ node_modules/p/node_modules
my_node_modules/p/x.js ⇒ ∅
lib/x.js ⇒ ∅
∅ ⇒ ∅
"#;

// The text of the package's folder of the path that a text names.
pub(crate) fn package_answer(alloc: Global, text: &str) -> Result<String, Fail> {
    let path = ModulePath::read(alloc, text)?.ok_or("path")?;
    Ok(String::from_str(alloc, path.package_of(alloc)?.as_str())?)
}

#[test]
fn a_folder_in_memory_fails_where_it_is_told(rt: HostRuntime) -> Result<(), Fail> {
    let alloc = rt.alloc();
    let mut folder = MemFolder::new(alloc);
    let path = ModulePath::read(alloc, "a.js")?.ok_or("path")?;
    let absent = ModulePath::read(alloc, "b.js")?.ok_or("path")?;
    folder.add(path.copy(alloc)?, b"one".to_vec(alloc)?)?;
    folder.add(path.copy(alloc)?, b"two".to_vec(alloc)?)?;
    folder.fail_at(List::of(vec![in alloc; 2]?));
    assert!(rt; folder.is_file(&path) == Ok(true));
    assert!(rt; folder.is_file(&path).is_err());
    assert!(rt; folder.is_file(&absent) == Ok(false));
    let bytes = folder.read(alloc, &path).ok().flatten().ok_or("bytes")?;
    assert_eq!(rt; bytes.as_slice(), b"two".as_slice());
    assert!(rt; folder.read(alloc, &absent).ok().ok_or("absent")?.is_none());
    Ok(())
}

#[test]
fn a_keeper_in_memory_keeps_entries(rt: HostRuntime) -> Result<(), Fail> {
    let alloc = rt.alloc();
    let mut keeper = MemKeeper::new(alloc);
    assert!(rt; EntryName::read(alloc, "E3")?.is_none());
    let name = EntryName::read(alloc, NAME)?.ok_or("name")?;
    assert_eq!(rt; name.as_str(), NAME);
    keeper.set(
        EntryName::read(alloc, NAME)?.ok_or("name")?,
        b"old".to_vec(alloc)?,
    )?;
    keeper.fail_at(List::of(vec![in alloc; 2]?));
    assert!(rt; keeper.put(&name, b"new") == Ok(()));
    assert!(rt; keeper.put(&name, b"newer") == Err(Failed));
    let bytes = keeper.get(alloc, &name).ok().flatten().ok_or("bytes")?;
    assert_eq!(rt; bytes.as_slice(), b"new".as_slice());
    Ok(())
}

#[test]
fn a_sink_in_memory_takes_what_fits(rt: HostRuntime) -> Result<(), Fail> {
    let alloc = rt.alloc();
    let mut sink = MemSink::new(alloc);
    assert!(rt; sink.write(b"ab") == Ok(2));
    sink.fail_after(3);
    assert!(rt; sink.write(b"cdefg") == Ok(3));
    assert!(rt; sink.write(b"h") == Err(Failed));
    assert!(rt; sink.write(b"") == Ok(0));
    sink.fail_at(List::of(vec![in alloc; 5]?));
    assert!(rt; sink.write(b"") == Err(Failed));
    assert_eq!(rt; sink.bytes(), b"abcde".as_slice());
    Ok(())
}
