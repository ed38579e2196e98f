//! Tests of ranges.
use crate::tables::{RowKind, rows_hold};
use npm_range::{Range, RangeFault};
use semver::Version;
use std::alloc::Global;
use std::test::Fail;

#[test]
fn ranges_hold_by_precedence(rt: HostRuntime) -> Result<(), Fail> {
    rows_hold(&rt, rt.alloc(), RowKind::Versions, RANGES)
}

const RANGES: &str = r#"
<1.2.0 ⇒ 1.1.9 1.2.0-rc.1 !1.2.0
* ⇒ 0.0.0-0
∅ ⇒ 0.0.0-0
>=1.0.0 <1.2.0 || 2.0.0 ⇒ 2.0.0 2.0.0+b !1.5.0
<=1.2.0 ⇒ 1.2.0 1.2.0+x !1.2.1-0
>1.2.0 ⇒ 1.2.1-0 !1.2.0 !1.2.0+x
=1.0.0-rc.1 ⇒ 1.0.0-rc.1+b !1.0.0
1.0.0+a ⇒ 1.0.0+b 1.0.0 !1.0.1
# Pre-releases have the order of the standard.
<1.0.0-alpha.1 ⇒ 1.0.0-alpha
1.0.0-alpha.1 ⇒ !1.0.0-alpha
<1.0.0-alpha.beta ⇒ 1.0.0-alpha.1
1.0.0-alpha.beta ⇒ !1.0.0-alpha.1
<1.0.0-beta ⇒ 1.0.0-alpha.beta
1.0.0-beta ⇒ !1.0.0-alpha.beta
<1.0.0-beta.2 ⇒ 1.0.0-beta
1.0.0-beta.2 ⇒ !1.0.0-beta
<1.0.0-beta.11 ⇒ 1.0.0-beta.2
1.0.0-beta.11 ⇒ !1.0.0-beta.2
<1.0.0-rc.1 ⇒ 1.0.0-beta.11
1.0.0-rc.1 ⇒ !1.0.0-beta.11
<1.0.0 ⇒ 1.0.0-rc.1
1.0.0 ⇒ !1.0.0-rc.1
# Spaces, bars and lone operators.
> 1.0.0 ⇒ 1.1.0 !1.0.0
>   1.0.0 ⇒ 1.1.0 !1.0.0
  >1.0.0   ⇒ 1.1.0 !1.0.0
>1.0.0||>1.5.0 ⇒ 1.1.0 !1.0.0
>1.0.0 * * ⇒ 1.1.0 !1.0.0
> 1.0.0 <= 2.0.0 || 3.0.0 ⇒ 1.1.0 !1.0.0
9.0.0||>1.0.0 ⇒ 1.1.0 !1.0.0
>1.0.0 ||> 4.0.0 ⇒ 1.1.0 !1.0.0
|| ⇒ 1.1.0 0.0.0-0
9.0.0|| ⇒ 1.1.0 0.0.0-0
||9.0.0 ⇒ 1.1.0 0.0.0-0
∅    ⇒ 1.1.0 0.0.0-0
*||9.0.0 ⇒ 1.1.0 0.0.0-0
9.0.0||    ⇒ 1.1.0 0.0.0-0
9.0.0 || *  ⇒ 1.1.0 0.0.0-0
"#;

// The versions that stand between spaces, each with `!` in front where the range doesn't hold for it.
pub(crate) fn versions_answer(alloc: Global, text: &str, versions: &str) -> Result<String, Fail> {
    let range = Range::read(alloc, text)?;
    let mut answer = String::new(alloc);
    for word in versions.split(' ') {
        let version = word.strip_prefix("!").unwrap_or(word);
        if !answer.is_empty() {
            answer.push(' ')?;
        }
        if !range.holds(&Version::parse(alloc, version)?) {
            answer.push('!')?;
        }
        answer.push_str(version)?;
    }
    Ok(answer)
}

#[test]
fn bad_pieces_have_their_offset(rt: HostRuntime) -> Result<(), Fail> {
    rows_hold(&rt, rt.alloc(), RowKind::Range, BAD_PIECES)
}

const BAD_PIECES: &str = r#"
>1.0.0 < ⇒ range at 7
^1.0.0 ⇒ range at 0
1.2 ⇒ range at 0
> =1.0.0 ⇒ range at 0
~1.0.0 ⇒ range at 0
1.x ⇒ range at 0
v1.0.0 ⇒ range at 0
1.0.0 - 2.0.0 ⇒ range at 6
> * ⇒ range at 0
>* ⇒ range at 0
** ⇒ range at 0
=>1.0.0 ⇒ range at 0
==1.0.0 ⇒ range at 0
<1.0.0|2.0.0 ⇒ range at 0
1.0.0|||2.0.0 ⇒ range at 7
  1.0.0  01.0.0 ⇒ range at 9
1.0.0␉ ⇒ range at 0
> || 1.0.0 ⇒ range at 0
1.0.0 || <= || ⇒ range at 9
é ⇒ range at 0
é||1.0.0 ⇒ range at 0
* é ⇒ range at 2
1.0.0-01 ⇒ range at 0
18446744073709551616.0.0 ⇒ range at 0
latest ⇒ range at 0
"#;

// The fault of a text, as it is printed.
pub(crate) fn range_answer(alloc: Global, text: &str) -> Result<String, Fail> {
    match Range::read(alloc, text) {
        Ok(_) => Err(Fail::from("no fault")),
        Err(fault) => Ok(format!(in alloc; "{fault}")?),
    }
}

#[test]
fn faults_have_their_messages(rt: HostRuntime) -> Result<(), Fail> {
    let alloc = rt.alloc();
    let at = format!(in alloc; "{}", RangeFault::At { offset: 7 })?;
    let memory = format!(in alloc; "{}", RangeFault::OutOfMemory)?;
    assert!(rt; at.as_str() == "range at 7" && memory.as_str() == "out of memory");
    Ok(())
}
