//! Tables of call graphs. A line `graph COUNTS` has how many functions each module has. The lines behind it are
//! the calls: `0:1 20 1:2` is one by the function 1 of the module 0, at the offset 20, of the function 2 of the
//! module 1. A line `path ENTRY FUNCTION` has behind it the calls of the path from the body of the entry to the
//! function, or `none`, and a line `count ENTRY` how many functions are reachable from there.
//!
//! Lines behind begin with four spaces, and a line that begins with `# ` is a heading.
use crate::reach_path_tests::reach_of;
use jam_base::{Edge, FunctionRef};
use reach_path::Reach;
use std::alloc::{AllocError, Global};
use std::process::Abort;
use std::test::Fail;

// The number of functions of each module, and the calls.
#[derive(Drop)]
struct Graph {
    functions: Vec<u32>,
    edges: Vec<Edge>,
}

// Each graph of the table is as it says.
pub(crate) fn graphs_hold(rt: &impl Abort, alloc: Global, table: &str) -> Result<(), Fail> {
    let mut graph = Graph {
        functions: Vec::new(alloc),
        edges: Vec::new(alloc),
    };
    let mut entry = String::new(alloc);
    let mut behind = String::new(alloc);
    for line in table.lines() {
        if line.is_empty() || line.starts_with("# ") {
            continue;
        }
        if let Some(more) = line.strip_prefix("    ") {
            push_line(&mut behind, more)?;
            continue;
        }
        entry_holds(rt, alloc, &mut graph, entry.as_str(), behind.as_str())?;
        entry = String::from_str(alloc, line)?;
        behind = String::new(alloc);
    }
    assert!(rt; !entry.is_empty(), "no entries");
    entry_holds(rt, alloc, &mut graph, entry.as_str(), behind.as_str())
}

fn push_line(behind: &mut String, more: &str) -> Result<(), AllocError> {
    behind.push_str(more)?;
    behind.push('\n')
}

// A line of the table, and the lines behind it.
fn entry_holds(
    rt: &impl Abort,
    alloc: Global,
    graph: &mut Graph,
    entry: &str,
    behind: &str,
) -> Result<(), Fail> {
    if entry.is_empty() {
        return Ok(());
    }
    let (kind, rest) = entry.split_once(" ").ok_or("a line of one word")?;
    match kind {
        "graph" => read_graph(alloc, graph, rest, behind),
        "path" => path_holds(rt, alloc, graph, rest, behind),
        "count" => count_holds(rt, alloc, graph, rest, behind),
        _ => Err(Fail::from("a line of no kind")),
    }
}

fn read_graph(alloc: Global, graph: &mut Graph, counts: &str, calls: &str) -> Result<(), Fail> {
    graph.functions = counts_of(alloc, counts)?;
    graph.edges = edges_of(alloc, calls)?;
    Ok(())
}

fn path_holds(
    rt: &impl Abort,
    alloc: Global,
    graph: &Graph,
    rest: &str,
    want: &str,
) -> Result<(), Fail> {
    let (entry, function) = rest.split_once(" ").ok_or("a function")?;
    let function = function_of(function)?;
    let reach = reach_from(alloc, graph, entry)?;
    let path = path_text(alloc, &reach, function)?;
    assert_eq!(rt; path.as_str(), want, "{rest}");
    assert_eq!(rt; reach.has(function), want != "none\n", "{rest}");
    Ok(())
}

fn count_holds(
    rt: &impl Abort,
    alloc: Global,
    graph: &Graph,
    entry: &str,
    want: &str,
) -> Result<(), Fail> {
    let reach = reach_from(alloc, graph, entry)?;
    let count = format!(in alloc; "{}\n", reach.count())?;
    assert_eq!(rt; count.as_str(), want, "{entry}");
    Ok(())
}

fn reach_from(alloc: Global, graph: &Graph, entry: &str) -> Result<Reach, Fail> {
    reach_of(
        alloc,
        graph.functions.as_slice(),
        graph.edges.as_slice(),
        number_of(entry)?,
    )
}

// The calls of the path to a function, a line for each, or `none`.
fn path_text(alloc: Global, reach: &Reach, function: FunctionRef) -> Result<String, Fail> {
    match reach.path(alloc, function)? {
        Some(edges) => edges_text(alloc, edges.as_slice()),
        None => Ok(String::from_str(alloc, "none\n")?),
    }
}

fn edges_text(alloc: Global, edges: &[Edge]) -> Result<String, Fail> {
    let mut text = String::new(alloc);
    for edge in edges {
        let line = edge_text(alloc, edge)?;
        text.push_str(line.as_str())?;
    }
    Ok(text)
}

fn edge_text(alloc: Global, edge: &Edge) -> Result<String, AllocError> {
    let Edge {
        caller,
        offset,
        callee,
    } = edge;
    format!(in alloc;
        "{}:{} {offset} {}:{}\n",
        caller.module, caller.function, callee.module, callee.function
    )
}

fn counts_of(alloc: Global, text: &str) -> Result<Vec<u32>, Fail> {
    let mut counts = Vec::new(alloc);
    for word in text.split(' ') {
        counts.push(number_of(word)?)?;
    }
    Ok(counts)
}

fn edges_of(alloc: Global, text: &str) -> Result<Vec<Edge>, Fail> {
    let mut edges = Vec::new(alloc);
    for line in text.lines() {
        edges.push(edge_of(line)?)?;
    }
    Ok(edges)
}

fn edge_of(line: &str) -> Result<Edge, Fail> {
    let (caller, rest) = line.split_once(" ").ok_or("a caller")?;
    let (offset, callee) = rest.split_once(" ").ok_or("an offset")?;
    Ok(Edge {
        caller: function_of(caller)?,
        offset: number_of(offset)?,
        callee: function_of(callee)?,
    })
}

fn function_of(text: &str) -> Result<FunctionRef, Fail> {
    let (module, function) = text.split_once(":").ok_or("a module")?;
    Ok(FunctionRef {
        module: number_of(module)?,
        function: number_of(function)?,
    })
}

fn number_of(text: &str) -> Result<u32, Fail> {
    Ok(text.parse::<u32>().ok().ok_or("a number")?)
}
