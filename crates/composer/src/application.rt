//! The vertices and values of an application of several modules.
ghost use Rattle.std.specs.Prelude.{refl};
ghost use Rattle.std.specs.Cmp.{on_total, then_total, nat_cmp_total, partial_equiv_from_equiv, partial_order_from_total};
ghost use Rattle.std.specs.Cmp.Lexicographic.{nat_list_cmp_total};
ghost use Rattle.std.specs.Ordering.{as_partial_cmp, eq_by_cmp};
ghost use Rattle.std.proofs.lemmas.Cmp.{eq_by_cmp_equiv};
ghost use Rattle.flow_rules.specs.Vertices.{vertex_key};
ghost use Rattle.composer.specs.Numbers.{module_vertex_order};

use flow_fold::Summary;
use flow_rules::Vertex;
use jam_base::{FunctionRef, ModulePath};
use std::cmp::Ordering;

/// A value that can be called.
#[derive(Clone, Copy, Debug, PartialEq, Eq, Drop)]
pub enum Value {
    /// A function of a module.
    Fun(FunctionRef),
    /// Any function of the runtime.
    Native,
}

/// A vertex and its module's place in the list of modules, which is 0 for the vertices that the whole
/// application shares.
#[derive(Debug, Drop)]
pub struct ModuleVertex {
    pub module: u32,
    pub vertex: Vertex,
}

impl PartialEq for ModuleVertex {
    ghost eq = { eq_by_cmp module_vertex_order };

    ghost laws = { partial_equiv_from_equiv (eq_by_cmp_equiv (then_total (on_total (λ v. v.module) nat_cmp_total) (on_total (λ v. vertex_key v.vertex) nat_list_cmp_total))) };

    fn eq(&self, other: &ModuleVertex) -> bool {
        self.cmp(other).is_eq()
    }
}

impl Eq for ModuleVertex {
    ghost laws = { eq_by_cmp_equiv (then_total (on_total (λ v. v.module) nat_cmp_total) (on_total (λ v. vertex_key v.vertex) nat_list_cmp_total)) };
}

impl PartialOrd for ModuleVertex {
    ghost partial_cmp = { as_partial_cmp module_vertex_order };

    ghost laws = { partial_order_from_total (then_total (on_total (λ v. v.module) nat_cmp_total) (on_total (λ v. vertex_key v.vertex) nat_list_cmp_total)) };

    fn partial_cmp(&self, other: &ModuleVertex) -> Option<Ordering> {
        Some(self.cmp(other))
    }
}

impl Ord for ModuleVertex {
    ghost cmp = { module_vertex_order };

    ghost total = { then_total (on_total (λ v. v.module) nat_cmp_total) (on_total (λ v. vertex_key v.vertex) nat_list_cmp_total) };

    ghost matches_partial_cmp = { λ x y. refl };

    ghost matches_eq = { λ x y. refl };

    fn cmp(&self, other: &ModuleVertex) -> Ordering {
        self.module
            .cmp(&other.module)
            .then(self.vertex.cmp(&other.vertex))
    }
}

/// A module of an application: its path, and what is kept of it.
#[derive(Debug, Drop)]
pub struct Part {
    pub path: ModulePath,
    pub summary: Summary,
}

/// The require at this offset of the module gives what the target exports. Modules are given by their
/// places in the list of parts.
#[derive(Clone, Copy, Debug, PartialEq, Eq, Drop)]
pub struct Link {
    pub module: u32,
    pub offset: u32,
    pub target: u32,
}
