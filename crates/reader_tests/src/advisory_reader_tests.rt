//! Tests of advisory files.
use crate::tables::{RowKind, rows_hold};
use advisory_reader::{AdvisoryFault, Field, read_advisories};
use semver::Version;
use std::alloc::Global;
use std::test::Fail;

#[test]
fn a_list_is_read(rt: HostRuntime) -> Result<(), Fail> {
    let alloc = rt.alloc();
    let text = b"{\"version\":1,\"advisories\":[\
        {\"id\":\"X-1\",\"package\":\"@s/a\",\"range\":\"<1.2.0\",\"url\":null,\
        \"functions\":[{\"file\":\"index.js\",\"name\":\"slow\"},{\"file\":\"*\",\"name\":\"*\"}]},\
        {\"id\":\"X-1\",\"package\":\"b\",\"range\":\"\",\"functions\":[]}]}";
    let advisories = read_advisories(alloc, text)?;
    assert!(rt; advisories.as_slice().len() == 2);
    let first = &advisories.as_slice()[0];
    assert!(rt; first.id.as_str() == "X-1" && first.package.as_str() == "@s/a");
    assert!(rt; first.range.holds(&Version::parse(alloc, "1.1.0")?));
    assert!(rt; !first.range.holds(&Version::parse(alloc, "1.2.0")?));
    assert!(rt; first.functions.as_slice().len() == 2);
    let selector = &first.functions.as_slice()[0];
    assert!(rt; selector.file.as_str() == "index.js" && selector.name.as_str() == "slow");
    assert!(rt; advisories.as_slice()[1].functions.as_slice().is_empty());
    assert!(rt;
        read_advisories(alloc, b"{\"advisories\":[]}")?
            .as_slice()
            .is_empty()
    );
    Ok(())
}

#[test]
fn files_of_another_shape_are_refused(rt: HostRuntime) -> Result<(), Fail> {
    rows_hold(&rt, rt.alloc(), RowKind::Advisories, SHAPES)
}

const SHAPES: &str = r#"
{} ⇒ wrong shape
[] ⇒ wrong shape
3 ⇒ wrong shape
{"advisories":{}} ⇒ wrong shape
∅ ⇒ not JSON
[ ⇒ not JSON
{"advisories":[} ⇒ not JSON
"#;

// The fault of a text, as it is printed.
pub(crate) fn advisories_answer(alloc: Global, text: &str) -> Result<String, Fail> {
    match read_advisories(alloc, text.as_bytes()) {
        Ok(_) => Err(Fail::from("no fault")),
        Err(fault) => Ok(format!(in alloc; "{fault}")?),
    }
}

#[test]
fn arrays_that_nest_128_times_are_refused(rt: HostRuntime) -> Result<(), Fail> {
    let alloc = rt.alloc();
    let mut deep = String::new(alloc);
    for text in ["["; 128] {
        deep.push_str(text)?;
    }
    for text in ["]"; 128] {
        deep.push_str(text)?;
    }
    let fault = read_advisories(alloc, deep.as_str().as_bytes()).err();
    assert!(rt; fault == Some(AdvisoryFault::NotJson));
    Ok(())
}

#[test]
fn members_are_checked_in_order(rt: HostRuntime) -> Result<(), Fail> {
    rows_hold(&rt, rt.alloc(), RowKind::Advisory, MEMBERS)
}

const MEMBERS: &str = r#"
3 ⇒ advisory 0: id
[] ⇒ advisory 0: id
{} ⇒ advisory 0: id
{"id":""} ⇒ advisory 0: id
{"id":3} ⇒ advisory 0: id
{"id":null,"range":3} ⇒ advisory 0: id
{"id":"A","id":""} ⇒ advisory 0: id
{"id":"A"} ⇒ advisory 0: package
{"id":"A","package":""} ⇒ advisory 0: package
{"id":"A","package":[]} ⇒ advisory 0: package
{"id":"A","range":3} ⇒ advisory 0: package
{"id":"A","package":"a"} ⇒ advisory 0: range
{"id":"A","package":"a","range":1} ⇒ advisory 0: range
{"id":"A","package":"a","range":"*"} ⇒ advisory 0: functions
{"id":"A","package":"a","range":"*","functions":{}} ⇒ advisory 0: functions
{"id":"A","package":"a","range":"*","functions":[3]} ⇒ advisory 0: functions
{"id":"A","package":"a","range":"*","functions":[{"file":"*"}]} ⇒ advisory 0: functions
{"id":"A","package":"a","range":"*","functions":[{"name":"f"}]} ⇒ advisory 0: functions
{"id":"A","package":"a","range":"*","functions":[{"file":1,"name":"f"}]} ⇒ advisory 0: functions
{"id":"A","package":"a","range":"*","functions":[
    {"file":"","name":""},{"file":"*","name":null}]} ⇒ advisory 0: functions
# The first bad advisory is told.
{"id":"A","package":"a","range":"*","functions":[]},
    {"id":"A","package":"a","range":"^1.0.0"},3 ⇒ advisory 1: range at 0
"#;

// The fault of a file with these advisories.
pub(crate) fn advisory_answer(alloc: Global, text: &str) -> Result<String, Fail> {
    let file = format!(in alloc; "{{\"advisories\":[{text}]}}")?;
    advisories_answer(alloc, file.as_str())
}

#[test]
fn faults_have_their_messages(rt: HostRuntime) -> Result<(), Fail> {
    let alloc = rt.alloc();
    let rows = [
        (AdvisoryFault::NotJson, "not JSON"),
        (AdvisoryFault::Shape, "wrong shape"),
        (field_at(0, Field::Id), "advisory 0: id"),
        (field_at(1, Field::Package), "advisory 1: package"),
        (field_at(20, Field::Range), "advisory 20: range"),
        (field_at(3, Field::Functions), "advisory 3: functions"),
        (
            AdvisoryFault::Range { index: 4, at: 17 },
            "advisory 4: range at 17",
        ),
        (AdvisoryFault::OutOfMemory, "out of memory"),
    ];
    for (fault, printed) in rows {
        assert!(rt;
            format!(in alloc; "{fault}")?.as_str() == printed,
            "{printed}"
        );
    }
    Ok(())
}

fn field_at(index: u32, field: Field) -> AdvisoryFault {
    AdvisoryFault::Field { index, field }
}
