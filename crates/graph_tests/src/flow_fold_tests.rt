use flow_fold::{Summary, fold};
use flow_rules::{Constraints, Flow, ModuleNote, NoteKind, Require, Vertex};
use jam_base::{List, OutOfMemory, Text};
use js_scopes::{FunctionInfo, SiteInfo};
use std::alloc::Global;

fn flow(from: Vertex, to: Vertex) -> Flow {
    Flow { from, to }
}

// The lists of `var a = require("./b"); a(); require(a);`.
fn constraints(alloc: Global) -> Result<Option<Constraints>, OutOfMemory> {
    let mut functions = Vec::new(alloc);
    functions.push(FunctionInfo {
        start: 0,
        params: 0,
        name: Text::of(alloc, "<module>")?,
    })?;
    let mut sites = Vec::new(alloc);
    sites.push(SiteInfo {
        offset: 23,
        part: 0,
        holder: 0,
        args: 0,
    })?;
    let mut requires_ = Vec::new(alloc);
    requires_.push(Require {
        offset: 15,
        spec: Text::of(alloc, "./b")?,
        holder: 0,
    })?;
    let mut notes = Vec::new(alloc);
    notes.push(ModuleNote {
        offset: 34,
        kind: NoteKind::DynamicRequire,
    })?;
    let mut flows = Vec::new(alloc);
    flows.push(flow(Vertex::Req { offset: 15 }, Vertex::Var { local: 0 }))?;
    flows.push(flow(
        Vertex::Var { local: 0 },
        Vertex::Callee {
            offset: 23,
            part: 0,
        },
    ))?;
    Ok(Constraints::of(
        List::of(functions),
        List::of(sites),
        List::of(requires_),
        List::of(notes),
        List::of(flows),
    ))
}

fn has_all(summary: &Summary) -> bool {
    let names_match = match summary.functions() {
        [body] => body.name.as_str() == "<module>",
        _ => false,
    };
    let specs_match = match summary.requires_() {
        [one] => one.spec.as_str() == "./b",
        _ => false,
    };
    let lengths = (
        summary.sites().len(),
        summary.notes().len(),
        summary.flows().len(),
        summary.made(),
    );
    names_match && specs_match && lengths == (1, 1, 2, 2)
}

#[test]
fn a_module_folds_to_its_lists(rt: HostRuntime) -> Result<(), OutOfMemory> {
    let alloc = rt.alloc();
    let Some(made) = constraints(alloc)? else {
        assert!(rt; false);
        return Ok(());
    };
    let summary = fold(alloc, made)?;
    assert!(rt; has_all(&summary));
    let copy = summary.copy(alloc)?;
    assert!(rt; has_all(&copy));
    Ok(())
}

#[test]
fn a_summary_has_at_most_the_flows_that_were_made(rt: HostRuntime) -> Result<(), OutOfMemory> {
    let alloc = rt.alloc();
    let mut answers = Vec::new(alloc);
    for made in 0..4 {
        let Some(lists) = constraints(alloc)? else {
            assert!(rt; false);
            return Ok(());
        };
        let found = Summary::of(alloc, lists, made)?;
        answers.push(found.map(|summary| summary.made()))?;
    }
    assert!(rt; answers.as_slice() == [None, None, Some(2), Some(3)].as_slice());
    Ok(())
}
