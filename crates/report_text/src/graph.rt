//! The call graph as text.
ghost use Rattle.std.specs.Prelude.{◌≡◌, ◌++◌, IfOk, OnOk, string_bytes};
ghost use Rattle.report_text.specs.Graph.{graph_text_of, place_text, step_text};

use crate::escape::push_escaped;
use crate::shown::PathStep;
use jam_base::{List, OutOfMemory, Text};
use std::alloc::{AllocError, Global};

/// A line `PATH:LINE:COLUMN -> PATH:LINE:COLUMN NAME` for each edge, in the order of the list, each
/// ended by a line feed, with paths and names `escaped`.
pub fn graph_text(alloc: Global, edges: &List<PathStep>) -> Result<Text, OutOfMemory>
    ensures { IfOk result (λ made. made ≡ graph_text_of edges.now) }
{
    let mut out = String::new(alloc);
    for step in edges.as_slice() {
        push_step(&mut out, step)?;
        out.push('\n')?;
    }
    Ok(Text::from_string(out))
}

pub(crate) fn push_step(out: &mut String, step: &PathStep) -> Result<(), AllocError>
    ensures { OnOk result (string_bytes out.new ≡ string_bytes out.old ++ step_text step.now) }
{
    push_place(out, step.path.as_str(), step.line, step.column)?;
    out.push_str(" -> ")?;
    let callee = &step.callee;
    push_place(out, callee.path.as_str(), callee.line, callee.column)?;
    out.push(' ')?;
    push_escaped(out, callee.name.as_str())
}

pub(crate) fn push_place(
    out: &mut String,
    path: &str,
    line: u32,
    column: u32,
) -> Result<(), AllocError>
    ensures { OnOk result (string_bytes out.new ≡ string_bytes out.old ++ place_text path.now line column) }
{
    push_escaped(out, path)?;
    write!(out, ":{line}:{column}")
}
