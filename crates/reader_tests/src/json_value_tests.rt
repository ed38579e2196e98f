use json_value::read_value;
use serde_json::Value;
use std::test::Fail;

#[test]
fn bytes_are_a_value_or_none(rt: HostRuntime) -> Result<(), Fail> {
    let alloc = rt.alloc();
    let value = read_value(alloc, b"{\"a\":1,\"a\":2}")?.ok_or("a value")?;
    assert!(rt; value.get("a").and_then(Value::as_u64) == Some(2));
    let texts: [&[u8]; 6] = [
        b"",
        b"[",
        b"1e999",
        b"\"\\ud800\"",
        b"\"\xff\"",
        b"\xef\xbb\xbf1",
    ];
    for bytes in texts {
        assert!(rt; read_value(alloc, bytes)?.is_none());
    }
    Ok(())
}

#[test]
fn arrays_nest_up_to_127_levels(rt: HostRuntime) -> Result<(), Fail> {
    let alloc = rt.alloc();
    let mut opened = String::new(alloc);
    for text in ["["; 127] {
        opened.push_str(text)?;
    }
    let mut closed = String::new(alloc);
    for text in ["]"; 127] {
        closed.push_str(text)?;
    }
    let lawful = format!(in alloc; "{opened}{closed}")?;
    let deeper = format!(in alloc; "[{opened}{closed}]")?;
    assert!(rt; read_value(alloc, lawful.as_bytes())?.is_some());
    assert!(rt; read_value(alloc, deeper.as_bytes())?.is_none());
    Ok(())
}
