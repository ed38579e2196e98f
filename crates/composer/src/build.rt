//! The constraints of an application as one system.
ghost use Rattle.std.specs.Prelude.{◌≡◌, ◌++◌, cond, map, IfOk, OnOk, flat_map};
ghost use Rattle.std.specs.List.{enumerate_from, range_with_len};
ghost use Rattle.flow_rules.specs.declared.vertex.Vertex.TheVariants.{Param, Arg};
ghost use Rattle.flow_rules.specs.Vertices.{is_shared};
ghost use Rattle.composer.specs.Application as application;
ghost use Rattle.composer.specs.Application.{native_places, of_each};
ghost use Rattle.composer.specs.Natives.{native_names};
ghost use Rattle.composer.specs.Parts.{lists_of};

use crate::application::{Link, ModuleVertex, Part, Value};
use crate::numbers::MOST;
use crate::system::{Arrow, CallSite, Callable, System};
use flow_rules::{Flow, Vertex};
use jam_base::{FunctionRef, List, OutOfMemory, Text};
use js_scopes::{FunctionInfo, SiteInfo};
use std::alloc::Global;

/// The functions, sites and flows of all parts together, with the links as flows.
pub(crate) fn system_of(
    alloc: Global,
    parts: &[Part],
    links: &[Link],
) -> Result<System<ModuleVertex, Value>, OutOfMemory>
    ensures { IfOk result (λ system. system ≡ application.system_of (lists_of parts.now) links.now) }
{
    let functions = all_functions(alloc, parts)?;
    let sites = all_sites(alloc, parts)?;
    let flows = all_flows(alloc, parts, links)?;
    let native_at = native_at(alloc)?;
    Ok(System {
        functions: List::of(functions),
        sites: List::of(sites),
        flows: List::of(flows),
        elem: at_module(0, Vertex::Elem),
        native: Value::Native,
        native_at: List::of(native_at),
    })
}

fn all_functions(
    alloc: Global,
    parts: &[Part],
) -> Result<Vec<Callable<ModuleVertex, Value>>, OutOfMemory>
    ensures { IfOk result (λ out. out.items ≡ of_each (lists_of parts.now) (λ m c. map (application.callable_of m) (enumerate_from 0 c.functions))) }
{
    if parts.len() > MOST {
        return Err(OutOfMemory);
    }
    let mut out = Vec::new(alloc);
    for m in 0..parts.len() {
        push_functions(alloc, &mut out, m as u32, parts[m].summary.functions())?;
    }
    Ok(out)
}

fn push_functions(
    alloc: Global,
    out: &mut Vec<Callable<ModuleVertex, Value>>,
    m: u32,
    functions: &[FunctionInfo],
) -> Result<(), OutOfMemory>
    ensures { OnOk result (out.new.items ≡ out.old.items ++ map (application.callable_of m) (enumerate_from 0 functions.now)) }
{
    if functions.len() > MOST {
        return Err(OutOfMemory);
    }
    for f in 0..functions.len() {
        let callable = callable_of(alloc, m, f as u32, &functions[f])?;
        out.push(callable)?;
    }
    Ok(())
}

// Function number f of module m.
fn callable_of(
    alloc: Global,
    m: u32,
    f: u32,
    info: &FunctionInfo,
) -> Result<Callable<ModuleVertex, Value>, OutOfMemory>
    ensures { IfOk result (λ made. made ≡ application.callable_of m (f, info.now)) }
{
    let params = params_of(alloc, m, f, info.params)?;
    Ok(Callable {
        value: Value::Fun(FunctionRef {
            module: m,
            function: f,
        }),
        literal: at_module(m, Vertex::Lit { function: f }),
        params: List::of(params),
        rest: at_module(m, Vertex::Rest { function: f }),
        ret: at_module(m, Vertex::Ret { function: f }),
    })
}

fn params_of(
    alloc: Global,
    m: u32,
    function: u32,
    count: u32,
) -> Result<Vec<ModuleVertex>, OutOfMemory>
    ensures { IfOk result (λ out. out.items ≡ map (λ j. application.at_module m (Param function j)) (range_with_len 0 count)) }
{
    let mut out = Vec::new(alloc);
    for index in 0..count {
        out.push(at_module(m, Vertex::Param { function, index }))?;
    }
    Ok(out)
}

fn all_sites(alloc: Global, parts: &[Part]) -> Result<Vec<CallSite<ModuleVertex>>, OutOfMemory>
    ensures { IfOk result (λ out. out.items ≡ of_each (lists_of parts.now) (λ m c. map (application.site_of m) c.sites)) }
{
    if parts.len() > MOST {
        return Err(OutOfMemory);
    }
    let mut out = Vec::new(alloc);
    for m in 0..parts.len() {
        push_sites(alloc, &mut out, m as u32, parts[m].summary.sites())?;
    }
    Ok(out)
}

fn push_sites(
    alloc: Global,
    out: &mut Vec<CallSite<ModuleVertex>>,
    m: u32,
    sites: &[SiteInfo],
) -> Result<(), OutOfMemory>
    ensures { OnOk result (out.new.items ≡ out.old.items ++ map (application.site_of m) sites.now) }
{
    for site in sites {
        let made = site_of(alloc, m, site)?;
        out.push(made)?;
    }
    Ok(())
}

// A site of module m.
fn site_of(alloc: Global, m: u32, site: &SiteInfo) -> Result<CallSite<ModuleVertex>, OutOfMemory>
    ensures { IfOk result (λ made. made ≡ application.site_of m site.now) }
{
    let args = args_of(alloc, m, site.offset, site.part, site.args)?;
    let (offset, part) = (site.offset, site.part);
    Ok(CallSite {
        callee: at_module(m, Vertex::Callee { offset, part }),
        args: List::of(args),
        more: at_module(m, Vertex::More { offset, part }),
        recv: at_module(m, Vertex::Recv { offset, part }),
        res: at_module(m, Vertex::Res { offset, part }),
    })
}

fn args_of(
    alloc: Global,
    m: u32,
    offset: u32,
    part: u8,
    count: u32,
) -> Result<Vec<ModuleVertex>, OutOfMemory>
    ensures { IfOk result (λ out. out.items ≡ map (λ i. application.at_module m (Arg offset part i)) (range_with_len 0 count)) }
{
    let mut out = Vec::new(alloc);
    for index in 0..count {
        out.push(at_module(
            m,
            Vertex::Arg {
                offset,
                part,
                index,
            },
        ))?;
    }
    Ok(out)
}

fn all_flows(
    alloc: Global,
    parts: &[Part],
    links: &[Link],
) -> Result<Vec<Arrow<ModuleVertex>>, OutOfMemory>
    ensures { IfOk result (λ out. out.items ≡ of_each (lists_of parts.now) (λ m c. map (application.flow_of m) c.flows) ++ map application.link_flow links.now) }
{
    if parts.len() > MOST {
        return Err(OutOfMemory);
    }
    let mut out = Vec::new(alloc);
    for m in 0..parts.len() {
        push_flows(alloc, &mut out, m as u32, parts[m].summary.flows())?;
    }
    push_links(&mut out, links)?;
    Ok(out)
}

fn push_flows(
    alloc: Global,
    out: &mut Vec<Arrow<ModuleVertex>>,
    m: u32,
    flows: &[Flow],
) -> Result<(), OutOfMemory>
    ensures { OnOk result (out.new.items ≡ out.old.items ++ map (application.flow_of m) flows.now) }
{
    for flow in flows {
        let made = flow_of(alloc, m, flow)?;
        out.push(made)?;
    }
    Ok(())
}

fn flow_of(alloc: Global, m: u32, flow: &Flow) -> Result<Arrow<ModuleVertex>, OutOfMemory>
    ensures { IfOk result (λ made. made ≡ application.flow_of m flow.now) }
{
    let from = flow.from.copy(alloc)?;
    let to = flow.to.copy(alloc)?;
    Ok(Arrow {
        from: at_module(m, from),
        to: at_module(m, to),
    })
}

fn push_links(out: &mut Vec<Arrow<ModuleVertex>>, links: &[Link]) -> Result<(), OutOfMemory>
    ensures { OnOk result (out.new.items ≡ out.old.items ++ map application.link_flow links.now) }
{
    for link in links {
        out.push(link_flow(link))?;
    }
    Ok(())
}

fn link_flow(link: &Link) -> Arrow<ModuleVertex>
    ensures { result ≡ application.link_flow link.now }
{
    Arrow {
        from: at_module(link.target, Vertex::Exports),
        to: at_module(
            link.module,
            Vertex::Req {
                offset: link.offset,
            },
        ),
    }
}

// The places of functions of the runtime that call what they are given.
fn native_at(alloc: Global) -> Result<Vec<ModuleVertex>, OutOfMemory>
    ensures { IfOk result (λ out. out.items ≡ flat_map native_places native_names) }
{
    let mut out = Vec::new(alloc);
    for name in names() {
        push_places(alloc, &mut out, name)?;
    }
    Ok(out)
}

// A property and a global of this name.
fn push_places(alloc: Global, out: &mut Vec<ModuleVertex>, name: &str) -> Result<(), OutOfMemory>
    ensures { OnOk result (out.new.items ≡ out.old.items ++ native_places name.now) }
{
    out.push(at_module(0, Vertex::Prop(Text::of(alloc, name)?)))?;
    out.push(at_module(0, Vertex::Global(Text::of(alloc, name)?)))?;
    Ok(())
}

#[tactic(auto, unfolding(crate::specs::Natives::native_names))]
fn names() -> &'static [&'static str]
    ensures { map (λ name. name.now) result.now ≡ native_names }
{
    &[
        "Promise",
        "addListener",
        "catch",
        "createServer",
        "every",
        "exec",
        "execFile",
        "filter",
        "finally",
        "find",
        "findIndex",
        "flatMap",
        "forEach",
        "map",
        "mkdir",
        "nextTick",
        "on",
        "once",
        "queueMicrotask",
        "readFile",
        "readdir",
        "reduce",
        "reduceRight",
        "replace",
        "request",
        "setImmediate",
        "setInterval",
        "setTimeout",
        "some",
        "sort",
        "stat",
        "then",
        "unlink",
        "writeFile",
    ]
}

// The vertex of module m: its own, or the one that all modules share.
fn at_module(m: u32, vertex: Vertex) -> ModuleVertex
    ensures { result ≡ application.at_module m vertex }
{
    ModuleVertex {
        module: module_of(m, &vertex),
        vertex,
    }
}

fn module_of(m: u32, vertex: &Vertex) -> u32
    ensures { result ≡ cond (is_shared vertex.now) 0 m }
{
    if vertex.is_shared() { 0 } else { m }
}
