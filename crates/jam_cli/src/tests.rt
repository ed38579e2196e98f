use crate::disk::DiskFolder;
use crate::sink::StdSink;
use jam_base::{Failed, Folder, ModulePath, Sink};
use std::alloc::Global;
use std::os::unix::fs::symlink;
use std::process::Abort;
use std::test::Fail;
use std::{fs, io};

#[test]
fn the_current_folder_is_read(rt: HostRuntime) -> Result<(), Fail> {
    let alloc = rt.alloc();
    let text = b"f();\n".as_slice();
    fs::write(&rt, "index.js", text)?;
    let mut folder = DiskFolder::new(&rt);
    let present = ModulePath::read(alloc, "index.js")?.ok_or("path")?;
    let absent = ModulePath::read(alloc, "index.js/absent\u{0}.js")?.ok_or("path")?;
    let inside = ModulePath::read(alloc, "index.js/inside.js")?.ok_or("path")?;
    let itself = ModulePath::read(alloc, ".")?.ok_or("path")?;
    assert!(rt; folder.is_file(&present) == Ok(true));
    assert!(rt; folder.is_file(&absent) == Ok(false));
    assert!(rt; folder.is_file(&inside) == Ok(false));
    assert!(rt; folder.is_file(&itself) == Ok(false));
    assert!(rt; folder.read(alloc, &absent).ok().ok_or("absent")?.is_none());
    assert!(rt; folder.read(alloc, &inside).ok().ok_or("inside")?.is_none());
    let bytes = folder.read(alloc, &present).ok().flatten().ok_or("bytes")?;
    assert_eq!(rt; bytes.as_slice(), text);
    fs::remove_file(&rt, "index.js")?;
    Ok(())
}

// What stands at the path: nothing, or a file with so many bytes.
fn found(
    rt: &impl Abort,
    alloc: Global,
    folder: &mut impl Folder,
    path: &str,
) -> Result<Option<usize>, Fail> {
    let path = ModulePath::read(alloc, path)?.ok_or("path")?;
    let is_file = folder.is_file(&path).ok().ok_or("is_file")?;
    let bytes = folder.read(alloc, &path).ok().ok_or("read")?;
    assert_eq!(rt; is_file, bytes.is_some());
    Ok(bytes.map(|bytes| bytes.len()))
}

#[test]
fn a_device_is_no_file(rt: HostRuntime) -> Result<(), Fail> {
    let alloc = rt.alloc();
    fs::write(&rt, "empty.js", b"".as_slice())?;
    symlink(&rt, "empty.js", "linked.js")?;
    symlink(&rt, "/dev/zero", "device.js")?;
    symlink(&rt, "none.js", "broken.js")?;
    let mut folder = DiskFolder::new(&rt);
    assert_eq!(rt; found(&rt, alloc, &mut folder, "empty.js")?, Some(0));
    assert_eq!(rt; found(&rt, alloc, &mut folder, "linked.js")?, Some(0));
    assert_eq!(rt; found(&rt, alloc, &mut folder, "device.js")?, None);
    assert_eq!(rt; found(&rt, alloc, &mut folder, "broken.js")?, None);
    for path in ["empty.js", "linked.js", "device.js", "broken.js"] {
        fs::remove_file(&rt, path)?;
    }
    Ok(())
}

#[test]
fn a_stream_takes_pieces(rt: HostRuntime) {
    let mut sink = StdSink::new(rt.stdout());
    assert!(rt; sink.write(b"piece\n") == Ok(6));
    assert!(rt; sink.write(b"") == Ok(0));
}
