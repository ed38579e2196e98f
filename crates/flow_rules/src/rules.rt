//! Whether lists keep the rules of a module.
ghost use Rattle.std.specs.Prelude.{◌≡◌, ◌≢◌, ◌↔◌, ◌<◌, IsTrue, IfSome, IfNone, length, All};
ghost use Rattle.std.specs.List.Sorted.{IsStrictlySortedBy};
ghost use Rattle.js_scopes.specs.Scopes.{site_order};
ghost use Rattle.js_scopes.specs.declared.site.SiteInfo.{SiteInfo as GhostSite};
ghost use Rattle.flow_rules.specs.Flows.{require_order};
ghost use Rattle.flow_rules.specs.Vertices.{vertex_key};
ghost use Rattle.flow_rules.specs.Rules.{AreFunctions, HasArg, HasFunction, HasParam, HasRequire, HasSite, IsFlow, IsFunction, IsNamed, IsNumbered, IsOrdered, IsRequire, IsShort, IsSite, IsSiteAt, KeepsRules};

use crate::{Flow, ModuleNote, Require, Vertex};
use jam_base::Ranked;
use js_scopes::{FunctionInfo, SiteInfo};
use std::marker::Model;

// How many items 32 bits don't number.
const LIMIT: usize = 4294967296;

/// The lists of a module, each in its order and without repeats.
#[derive(Drop)]
pub(crate) struct Lists<'m> {
    functions: &'m [FunctionInfo],
    sites: &'m [SiteInfo],
    requires_: &'m [Require],
    notes: &'m [ModuleNote],
    flows: &'m [Flow],
}

impl<'m> Model for Lists<'m> {
    ghost use Rattle.flow_rules.specs.Constraints.{ModuleConstraints};
    ghost use Rattle.flow_rules.specs.Rules.{IsOrdered};

    ghost Value = { ModuleConstraints };

    ghost view = { λ l. record { functions = l.functions.now; sites = l.sites.now; requires_ = l.requires_.now; notes = l.notes.now; flows = l.flows.now } };

    ghost invariant = { λ l. IsOrdered (record { functions = l.functions.now; sites = l.sites.now; requires_ = l.requires_.now; notes = l.notes.now; flows = l.flows.now }) };
}

/// Whether these lists keep the rules of a module.
pub(crate) fn keep_rules(
    functions: &[FunctionInfo],
    sites: &[SiteInfo],
    requires_: &[Require],
    notes: &[ModuleNote],
    flows: &[Flow],
) -> bool
    ensures { IsTrue result ↔ KeepsRules (record { functions = functions.now; sites = sites.now; requires_ = requires_.now; notes = notes.now; flows = flows.now }) }
{
    match Lists::of(functions, sites, requires_, notes, flows) {
        Some(lists) => lists.keep_rules(),
        None => false,
    }
}

// Whether each item goes before those behind it.
fn ascends<T: Ranked>(items: &[T]) -> bool
    ensures { IsTrue result ↔ IsStrictlySortedBy T.order items.now }
{
    items.is_sorted_by(|a, b| a.rank(b).is_lt())
}

impl<'m> Lists<'m> {
    // These lists, where each is in its order.
    fn of(
        functions: &'m [FunctionInfo],
        sites: &'m [SiteInfo],
        requires_: &'m [Require],
        notes: &'m [ModuleNote],
        flows: &'m [Flow],
    ) -> Option<Lists<'m>>
        ensures some { IfSome result (λ l. l ≡ record { functions = functions.now; sites = sites.now; requires_ = requires_.now; notes = notes.now; flows = flows.now }) }
        ensures none { IfNone result (IsOrdered (record { functions = functions.now; sites = sites.now; requires_ = requires_.now; notes = notes.now; flows = flows.now }) → ⊥) }
    {
        if !are_ordered(functions, sites, requires_, notes, flows) {
            return None;
        }
        Some(Lists {
            functions,
            sites,
            requires_,
            notes,
            flows,
        })
    }

    // They keep the other rules too.
    fn keep_rules(&self) -> bool
        ensures { IsTrue result ↔ KeepsRules self.now }
    {
        if !self.are_numbered() {
            return false;
        }
        if !all_functions(self.functions) {
            return false;
        }
        if !self.all_sites() {
            return false;
        }
        if !self.all_requires() {
            return false;
        }
        self.all_flows()
    }

    // 32 bits number the items of each list.
    fn are_numbered(&self) -> bool
        ensures { IsTrue result ↔ IsNumbered self.now }
    {
        if self.functions.len() >= LIMIT {
            return false;
        }
        if self.sites.len() >= LIMIT {
            return false;
        }
        if self.requires_.len() >= LIMIT {
            return false;
        }
        if self.notes.len() >= LIMIT {
            return false;
        }
        self.flows.len() < LIMIT
    }

    // A function has this number.
    fn has_function(&self, function: u32) -> bool
        ensures { IsTrue result ↔ HasFunction self.now function }
    {
        (function as usize) < self.functions.len()
    }

    // The function with this number has a parameter in this place.
    fn has_param(&self, function: u32, index: u32) -> bool
        ensures { IsTrue result ↔ HasParam self.now function index }
    {
        match self.functions.get(function as usize) {
            Some(info) => index < info.params,
            None => false,
        }
    }

    // The site with this offset and part.
    fn site_at(&self, offset: u32, part: u8) -> Option<SiteInfo>
        ensures some { IfSome result (λ s. IsSiteAt self.now offset part s) }
        ensures only { IfSome result (λ s. (t : GhostSite) → IsSiteAt self.now offset part t → t ≡ s) }
        ensures none { IfNone result (HasSite self.now offset part → ⊥) }
    {
        let sites = self.sites;
        let found = sites.binary_search_by(|s| s.offset.cmp(&offset).then(s.part.cmp(&part)));
        match found {
            Ok(place) => Some(sites[place]),
            Err(_) => None,
        }
    }

    // There is a site with this offset and part.
    fn has_site(&self, offset: u32, part: u8) -> bool
        ensures { IsTrue result ↔ HasSite self.now offset part }
    {
        self.site_at(offset, part).is_some()
    }

    // The site with this offset and part has an argument in this place.
    fn has_arg(&self, offset: u32, part: u8, index: u32) -> bool
        ensures { IsTrue result ↔ HasArg self.now offset part index }
    {
        match self.site_at(offset, part) {
            Some(site) => index < site.args,
            None => false,
        }
    }

    // There is a require with this offset.
    fn has_require(&self, offset: u32) -> bool
        ensures { IsTrue result ↔ HasRequire self.now offset }
    {
        let requires_ = self.requires_;
        let found = requires_.binary_search_by(|r| r.offset.cmp(&offset));
        match found {
            Ok(_) => true,
            Err(_) => false,
        }
    }

    // What the vertex names is there.
    fn is_named(&self, vertex: &Vertex) -> bool
        ensures { IsTrue result ↔ IsNamed self.now vertex.now }
    {
        match vertex {
            Vertex::Prop(name) => is_short(name.as_str()),
            Vertex::Elem => true,
            Vertex::Global(name) => is_short(name.as_str()),
            Vertex::Exports => true,
            Vertex::Param { function, index } => self.has_param(*function, *index),
            Vertex::Rest { function } => self.has_function(*function),
            Vertex::Ret { function } => self.has_function(*function),
            Vertex::Lit { function } => self.has_function(*function),
            Vertex::Callee { offset, part } => self.has_site(*offset, *part),
            Vertex::Arg {
                offset,
                part,
                index,
            } => self.has_arg(*offset, *part, *index),
            Vertex::More { offset, part } => self.has_site(*offset, *part),
            Vertex::Recv { offset, part } => self.has_site(*offset, *part),
            Vertex::Res { offset, part } => self.has_site(*offset, *part),
            Vertex::Req { offset } => self.has_require(*offset),
            Vertex::Var { .. } => true,
            Vertex::Exp { .. } => true,
        }
    }

    // The part of the site is 0 or 1, and a function holds it.
    fn is_site(&self, site: &SiteInfo) -> bool
        ensures { IsTrue result ↔ IsSite self.now site.now }
    {
        site.part < 2 && self.has_function(site.holder)
    }

    // The text of the require is short, and a function holds it.
    fn is_require(&self, require: &Require) -> bool
        ensures { IsTrue result ↔ IsRequire self.now require.now }
    {
        is_short(require.spec.as_str()) && self.has_function(require.holder)
    }

    // The ends of the flow differ, and what they name is there.
    fn is_flow(&self, flow: &Flow) -> bool
        ensures { IsTrue result ↔ IsFlow self.now flow.now }
    {
        differs(flow) && self.names_ends(flow)
    }

    // What the ends of the flow name is there.
    fn names_ends(&self, flow: &Flow) -> bool
        ensures { IsTrue result ↔ (IsNamed self.now flow.now.from × IsNamed self.now flow.now.to) }
    {
        self.is_named(&flow.from) && self.is_named(&flow.to)
    }

    fn all_sites(&self) -> bool
        ensures { IsTrue result ↔ All (IsSite self.now) self.now.sites }
    {
        self.sites.iter().all(|site| self.is_site(site))
    }

    fn all_requires(&self) -> bool
        ensures { IsTrue result ↔ All (IsRequire self.now) self.now.requires_ }
    {
        self.requires_
            .iter()
            .all(|require| self.is_require(require))
    }

    fn all_flows(&self) -> bool
        ensures { IsTrue result ↔ All (IsFlow self.now) self.now.flows }
    {
        self.flows.iter().all(|flow| self.is_flow(flow))
    }
}

// Its ends differ.
fn differs(flow: &Flow) -> bool
    ensures { IsTrue result ↔ (vertex_key flow.now.from ≢ vertex_key flow.now.to) }
{
    flow.from != flow.to
}

// 32 bits number its bytes.
fn is_short(text: &str) -> bool
    ensures { IsTrue result ↔ IsShort text.now }
{
    text.len() < LIMIT
}

fn all_functions(functions: &[FunctionInfo]) -> bool
    ensures { IsTrue result ↔ All IsFunction functions.now }
{
    functions.iter().all(|f| is_short(f.name.as_str()))
}

// Each list is in its order and without repeats.
fn are_ordered(
    functions: &[FunctionInfo],
    sites: &[SiteInfo],
    requires_: &[Require],
    notes: &[ModuleNote],
    flows: &[Flow],
) -> bool
    ensures { IsTrue result ↔ IsOrdered (record { functions = functions.now; sites = sites.now; requires_ = requires_.now; notes = notes.now; flows = flows.now }) }
{
    if !are_functions(functions) {
        return false;
    }
    if !ascends(sites) {
        return false;
    }
    if !ascends(requires_) {
        return false;
    }
    if !ascends(notes) {
        return false;
    }
    ascends(flows)
}

// The module's body, which starts at 0, and the other functions by their start.
fn are_functions(functions: &[FunctionInfo]) -> bool
    ensures { IsTrue result ↔ AreFunctions functions.now }
{
    match functions {
        [] => false,
        [body, others @ ..] => body.start == 0 && ascends(others),
    }
}
