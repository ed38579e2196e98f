use jam_base::{List, Text};
use report_text::{PathStep, Shown, escaped, graph_text};
use std::alloc::Global;
use std::process::Abort;
use std::test::Fail;

#[test]
fn a_taken_text_stays_on_its_line(rt: HostRuntime) -> Result<(), Fail> {
    prints(&rt, rt.alloc(), "a b~é€", "a b~é€")?;
    prints(&rt, rt.alloc(), "a\nb\\c\u{7f}", "a\\u000ab\\u005cc\\u007f")?;
    prints(&rt, rt.alloc(), "\u{0}\u{1f}\u{80}", "\\u0000\\u001f\u{80}")
}

fn prints<R: Abort>(rt: &R, alloc: Global, text: &str, want: &str) -> Result<(), Fail> {
    let made = escaped(alloc, text)?;
    assert_eq!(rt; made.as_str(), want);
    Ok(())
}

#[test]
fn an_edge_stands_on_a_line_of_its_own(rt: HostRuntime) -> Result<(), Fail> {
    let alloc = rt.alloc();
    let mut edges = Vec::new(alloc);
    edges.push(step(alloc, 1, 17, 2, "g")?)?;
    edges.push(step(alloc, 3, 2, 1, "f")?)?;
    let text = graph_text(alloc, &List::of(edges))?;
    let want = "index.js:1:17 -> index.js:2:1 g\nindex.js:3:2 -> index.js:1:1 f\n";
    assert_eq!(rt; text.as_str(), want);
    Ok(())
}

// A call in `index.js` of a function there.
fn step(alloc: Global, line: u32, column: u32, at: u32, name: &str) -> Result<PathStep, Fail> {
    let callee = Shown {
        path: Text::of(alloc, "index.js")?,
        line: at,
        column: 1,
        name: Text::of(alloc, name)?,
    };
    Ok(PathStep {
        path: Text::of(alloc, "index.js")?,
        line,
        column,
        callee,
    })
}
