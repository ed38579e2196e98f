use jam_base::decode_source;
use std::alloc::Global;
use std::process::Abort;
use std::test::Fail;

// Compares the text that bytes are read as.
fn compare(rt: &impl Abort, alloc: Global, bytes: &[u8], text: &str) -> Result<(), Fail> {
    let decoded = decode_source(alloc, bytes)?;
    assert_eq!(rt; decoded.as_str(), text);
    Ok(())
}

#[test]
fn a_mark_at_the_front_is_dropped(rt: HostRuntime) -> Result<(), Fail> {
    let alloc = rt.alloc();
    compare(&rt, alloc, b"\xef\xbb\xbfa\xff", "a\u{fffd}")?;
    compare(&rt, alloc, b"", "")?;
    compare(&rt, alloc, b"\xef\xbb\xbf", "")?;
    compare(&rt, alloc, b"\xef\xbb\xbf\xef\xbb\xbf", "\u{feff}")?;
    compare(&rt, alloc, b"a\xef\xbb\xbf", "a\u{feff}")
}

#[test]
fn bytes_of_each_wrong_kind_are_replaced(rt: HostRuntime) -> Result<(), Fail> {
    let alloc = rt.alloc();
    compare(&rt, alloc, b"\xef\xbb", "\u{fffd}")?;
    compare(&rt, alloc, b"\xc3\xa9\xc3(", "\u{e9}\u{fffd}(")?;
    compare(&rt, alloc, b"\xe2\x82x", "\u{fffd}x")?;
    compare(&rt, alloc, b"\xf0\x9f\x98\x80\xf0\x9f", "\u{1f600}\u{fffd}")?;
    compare(&rt, alloc, b"\xc0\x80", "\u{fffd}\u{fffd}")?;
    compare(&rt, alloc, b"\xed\xa0\x80", "\u{fffd}\u{fffd}\u{fffd}")?;
    compare(&rt, alloc, b"\xf5\x80", "\u{fffd}\u{fffd}")
}
