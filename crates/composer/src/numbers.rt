//! Numbers for the vertices and values of an application.
ghost use Rattle.std.specs.Prelude.{◌≡◌, ◌<◌, ◌≤◌, ◌∷◌, [], ◌++◌, ℕ, length, map, slice_index_or, All, Contains, IfOk, OnOk};
ghost use Rattle.composer.specs.declared.application.ModuleVertex.{ModuleVertex as AnyVertex};
ghost use Rattle.composer.specs.declared.application.Value.{Value as AnyValue};
ghost use Rattle.composer.specs.declared.system.Callable.{Callable as AnyCallable};
ghost use Rattle.composer.specs.Numbered as numbered;
ghost use Rattle.composer.specs.Numbered.{Below, HasValues, IsArrowIn, IsCallableIn, IsSiteIn, IsSystemIn, map_arrow, map_callable, map_site, map_system};
ghost use Rattle.composer.specs.Numbers.{AreVertices, value_at, vertex_at};

use crate::application::{ModuleVertex, Value};
use crate::system::{Arrow, CallSite, Callable, System};
use jam_base::{List, OutOfMemory};
use std::alloc::Global;
use std::marker::Model;

/// How many items a list has at most: one of more finds no memory.
pub(crate) const MOST: usize = 4294967295;

/// The vertices of an application in order, each once: the number of a vertex is its place.
#[derive(Drop)]
pub(crate) struct Vertices {
    sorted: Vec<ModuleVertex>,
}

impl Model for Vertices {
    ghost use Rattle.std.specs.Prelude.{List};
    ghost use Rattle.composer.specs.declared.application.ModuleVertex.{ModuleVertex as AnyVertex};
    ghost use Rattle.composer.specs.Numbers.{AreVertices};

    ghost Value = { List AnyVertex };

    ghost view = { λ v. v.sorted.items };

    ghost invariant = { λ v. AreVertices v.sorted.items };
}

impl Vertices {
    /// The vertices of a system.
    pub(crate) fn of(
        alloc: Global,
        system: &System<ModuleVertex, Value>,
    ) -> Result<Vertices, OutOfMemory>
        ensures vertices { IfOk result AreVertices }
        ensures all { IfOk result (λ vertices. (v : AnyVertex) → Contains (numbered.all_vertices system.now) v → Contains vertices v) }
    {
        let mut sorted = all_vertices(alloc, system)?;
        sorted.sort()?;
        sorted.dedup();
        if sorted.len() > MOST {
            return Err(OutOfMemory);
        }
        Ok(Vertices { sorted })
    }

    /// How many there are.
    pub(crate) fn count(&self) -> u32
        ensures count { result ≡ length self.now }
        ensures vertices { AreVertices self.now }
    {
        self.sorted.len() as u32
    }

    // The number of a vertex.
    fn number_of(&self, vertex: &ModuleVertex) -> u32
        requires { Contains self.now vertex.now }
        ensures names { vertex_at self.now result ≡ vertex.now }
        ensures below { result < length self.now }
    {
        match self.sorted.as_slice().binary_search(vertex) {
            Ok(place) => place as u32,
            Err(_) => 0,
        }
    }
}

fn all_vertices(
    alloc: Global,
    system: &System<ModuleVertex, Value>,
) -> Result<Vec<ModuleVertex>, OutOfMemory>
    ensures { IfOk result (λ out. out.items ≡ numbered.all_vertices system.now) }
{
    let mut out = Vec::new(alloc);
    for callable in system.functions.as_slice() {
        push_callable(alloc, &mut out, callable)?;
    }
    for site in system.sites.as_slice() {
        push_site(alloc, &mut out, site)?;
    }
    for flow in system.flows.as_slice() {
        push_arrow(alloc, &mut out, flow)?;
    }
    push_vertex(alloc, &mut out, &system.elem)?;
    push_vertices(alloc, &mut out, system.native_at.as_slice())?;
    Ok(out)
}

fn push_callable(
    alloc: Global,
    out: &mut Vec<ModuleVertex>,
    callable: &Callable<ModuleVertex, Value>,
) -> Result<(), OutOfMemory>
    ensures { OnOk result (out.new.items ≡ out.old.items ++ numbered.callable_vertices callable.now) }
{
    push_vertex(alloc, out, &callable.literal)?;
    push_vertices(alloc, out, callable.params.as_slice())?;
    push_vertex(alloc, out, &callable.rest)?;
    push_vertex(alloc, out, &callable.ret)
}

fn push_site(
    alloc: Global,
    out: &mut Vec<ModuleVertex>,
    site: &CallSite<ModuleVertex>,
) -> Result<(), OutOfMemory>
    ensures { OnOk result (out.new.items ≡ out.old.items ++ numbered.site_vertices site.now) }
{
    push_vertex(alloc, out, &site.callee)?;
    push_vertices(alloc, out, site.args.as_slice())?;
    push_vertex(alloc, out, &site.more)?;
    push_vertex(alloc, out, &site.recv)?;
    push_vertex(alloc, out, &site.res)
}

fn push_arrow(
    alloc: Global,
    out: &mut Vec<ModuleVertex>,
    arrow: &Arrow<ModuleVertex>,
) -> Result<(), OutOfMemory>
    ensures { OnOk result (out.new.items ≡ out.old.items ++ numbered.arrow_vertices arrow.now) }
{
    push_vertex(alloc, out, &arrow.from)?;
    push_vertex(alloc, out, &arrow.to)
}

fn push_vertices(
    alloc: Global,
    out: &mut Vec<ModuleVertex>,
    vertices: &[ModuleVertex],
) -> Result<(), OutOfMemory>
    ensures { OnOk result (out.new.items ≡ out.old.items ++ vertices.now) }
{
    for vertex in vertices {
        push_vertex(alloc, out, vertex)?;
    }
    Ok(())
}

fn push_vertex(
    alloc: Global,
    out: &mut Vec<ModuleVertex>,
    vertex: &ModuleVertex,
) -> Result<(), OutOfMemory>
    ensures { OnOk result (out.new.items ≡ out.old.items ++ vertex.now ∷ []) }
{
    out.push(ModuleVertex {
        module: vertex.module,
        vertex: vertex.vertex.copy(alloc)?,
    })?;
    Ok(())
}

/// The system with numbers for its vertices and values.
pub(crate) fn numbered(
    alloc: Global,
    vertices: &Vertices,
    system: &System<ModuleVertex, Value>,
) -> Result<System<u32, u32>, OutOfMemory>
    requires members { IsSystemIn (Contains vertices.now) system.now }
    requires native { system.now.native ≡ value_at system.now (length system.now.functions) }
    ensures names { IfOk result (λ made. map_system (vertex_at vertices.now) (value_at system.now) made ≡ system.now) }
    ensures below { IfOk result (IsSystemIn (Below (length vertices.now))) }
    ensures values { IfOk result HasValues }
    ensures few { IfOk result (λ made. made.native < 4294967295) }
{
    let functions = numbered_functions(alloc, vertices, system)?;
    let sites = numbered_sites(alloc, vertices, system.sites.as_slice())?;
    let flows = numbered_flows(alloc, vertices, system.flows.as_slice())?;
    let native_at = numbers_of(alloc, vertices, system.native_at.as_slice())?;
    Ok(System {
        native: functions.len() as u32,
        functions: List::of(functions),
        sites: List::of(sites),
        flows: List::of(flows),
        elem: vertices.number_of(&system.elem),
        native_at: List::of(native_at),
    })
}

fn numbered_functions(
    alloc: Global,
    vertices: &Vertices,
    system: &System<ModuleVertex, Value>,
) -> Result<Vec<Callable<u32, u32>>, OutOfMemory>
    requires { All (IsCallableIn (Contains vertices.now)) system.now.functions }
    ensures names { IfOk result (λ made. map (map_callable (vertex_at vertices.now) (value_at system.now)) made.items ≡ system.now.functions) }
    ensures below { IfOk result (λ made. All (IsCallableIn (Below (length vertices.now))) made.items) }
    ensures values { IfOk result (λ made. (k : ℕ) (f : AnyCallable ℕ ℕ) → k < length made.items → (slice_index_or made.items k f).value ≡ k) }
    ensures few { IfOk result (λ made. length made.items < 4294967295) }
{
    let functions = system.functions.as_slice();
    if functions.len() >= MOST {
        return Err(OutOfMemory);
    }
    let mut out = Vec::new(alloc);
    for k in 0..functions.len() {
        let made = numbered_callable(alloc, vertices, k as u32, &functions[k])?;
        out.push(made)?;
    }
    Ok(out)
}

fn numbered_callable(
    alloc: Global,
    vertices: &Vertices,
    value: u32,
    callable: &Callable<ModuleVertex, Value>,
) -> Result<Callable<u32, u32>, OutOfMemory>
    requires { IsCallableIn (Contains vertices.now) callable.now }
    ensures names { IfOk result (λ made. (e : ℕ → AnyValue) → e value ≡ callable.now.value → map_callable (vertex_at vertices.now) e made ≡ callable.now) }
    ensures below { IfOk result (IsCallableIn (Below (length vertices.now))) }
    ensures value { IfOk result (λ made. made.value ≡ value) }
{
    let params = numbers_of(alloc, vertices, callable.params.as_slice())?;
    Ok(Callable {
        value,
        literal: vertices.number_of(&callable.literal),
        params: List::of(params),
        rest: vertices.number_of(&callable.rest),
        ret: vertices.number_of(&callable.ret),
    })
}

fn numbered_sites(
    alloc: Global,
    vertices: &Vertices,
    sites: &[CallSite<ModuleVertex>],
) -> Result<Vec<CallSite<u32>>, OutOfMemory>
    requires { All (IsSiteIn (Contains vertices.now)) sites.now }
    ensures names { IfOk result (λ made. map (map_site (vertex_at vertices.now)) made.items ≡ sites.now) }
    ensures below { IfOk result (λ made. All (IsSiteIn (Below (length vertices.now))) made.items) }
{
    let mut out = Vec::new(alloc);
    for site in sites {
        let made = numbered_site(alloc, vertices, site)?;
        out.push(made)?;
    }
    Ok(out)
}

// A site with numbers for its vertices.
fn numbered_site(
    alloc: Global,
    vertices: &Vertices,
    site: &CallSite<ModuleVertex>,
) -> Result<CallSite<u32>, OutOfMemory>
    requires { IsSiteIn (Contains vertices.now) site.now }
    ensures names { IfOk result (λ made. map_site (vertex_at vertices.now) made ≡ site.now) }
    ensures below { IfOk result (IsSiteIn (Below (length vertices.now))) }
{
    let args = numbers_of(alloc, vertices, site.args.as_slice())?;
    Ok(CallSite {
        callee: vertices.number_of(&site.callee),
        args: List::of(args),
        more: vertices.number_of(&site.more),
        recv: vertices.number_of(&site.recv),
        res: vertices.number_of(&site.res),
    })
}

fn numbered_flows(
    alloc: Global,
    vertices: &Vertices,
    flows: &[Arrow<ModuleVertex>],
) -> Result<Vec<Arrow<u32>>, OutOfMemory>
    requires { All (IsArrowIn (Contains vertices.now)) flows.now }
    ensures names { IfOk result (λ made. map (map_arrow (vertex_at vertices.now)) made.items ≡ flows.now) }
    ensures below { IfOk result (λ made. All (IsArrowIn (Below (length vertices.now))) made.items) }
{
    let mut out = Vec::new(alloc);
    for flow in flows {
        out.push(numbered_flow(vertices, flow))?;
    }
    Ok(out)
}

fn numbered_flow(vertices: &Vertices, flow: &Arrow<ModuleVertex>) -> Arrow<u32>
    requires { IsArrowIn (Contains vertices.now) flow.now }
    ensures names { map_arrow (vertex_at vertices.now) result ≡ flow.now }
    ensures below { IsArrowIn (Below (length vertices.now)) result }
{
    Arrow {
        from: vertices.number_of(&flow.from),
        to: vertices.number_of(&flow.to),
    }
}

fn numbers_of(
    alloc: Global,
    vertices: &Vertices,
    some: &[ModuleVertex],
) -> Result<Vec<u32>, OutOfMemory>
    requires { All (Contains vertices.now) some.now }
    ensures names { IfOk result (λ made. map (vertex_at vertices.now) made.items ≡ some.now) }
    ensures below { IfOk result (λ made. All (Below (length vertices.now)) made.items) }
{
    let mut out = Vec::new(alloc);
    for vertex in some {
        out.push(vertices.number_of(vertex))?;
    }
    Ok(out)
}
