//! What a module has beside its functions and sites.
ghost use Rattle.std.specs.Prelude.{refl};
ghost use Rattle.std.specs.Cmp.Lexicographic.{nat_list_cmp_total};
ghost use Rattle.std.specs.Cmp.{on_total, then_total, partial_equiv_from_equiv, partial_order_from_total};
ghost use Rattle.std.specs.Ordering.{as_partial_cmp, eq_by_cmp};
ghost use Rattle.std.proofs.lemmas.Cmp.{eq_by_cmp_equiv};
ghost use Rattle.flow_rules.specs.Vertices.{vertex_key, flow_order};

use crate::Vertex;
use jam_base::{Ranked, Text};
use std::cmp::Ordering;

/// Each value at `from` comes to `to`.
#[derive(Debug, Drop)]
pub struct Flow {
    pub from: Vertex,
    pub to: Vertex,
}

impl PartialEq for Flow {
    ghost eq = { eq_by_cmp flow_order };

    ghost laws = { partial_equiv_from_equiv (eq_by_cmp_equiv (then_total (on_total (λ f. vertex_key f.from) nat_list_cmp_total) (on_total (λ f. vertex_key f.to) nat_list_cmp_total))) };

    fn eq(&self, other: &Flow) -> bool {
        self.cmp(other).is_eq()
    }
}

impl Eq for Flow {
    ghost laws = { eq_by_cmp_equiv (then_total (on_total (λ f. vertex_key f.from) nat_list_cmp_total) (on_total (λ f. vertex_key f.to) nat_list_cmp_total)) };
}

impl PartialOrd for Flow {
    ghost partial_cmp = { as_partial_cmp flow_order };

    ghost laws = { partial_order_from_total (then_total (on_total (λ f. vertex_key f.from) nat_list_cmp_total) (on_total (λ f. vertex_key f.to) nat_list_cmp_total)) };

    fn partial_cmp(&self, other: &Flow) -> Option<Ordering> {
        Some(self.cmp(other))
    }
}

impl Ord for Flow {
    ghost cmp = { flow_order };

    ghost total = { then_total (on_total (λ f. vertex_key f.from) nat_list_cmp_total) (on_total (λ f. vertex_key f.to) nat_list_cmp_total) };

    ghost matches_partial_cmp = { λ x y. refl };

    ghost matches_eq = { λ x y. refl };

    fn cmp(&self, other: &Flow) -> Ordering {
        self.from.cmp(&other.from).then(self.to.cmp(&other.to))
    }
}

impl Ranked for Flow {
    ghost use Rattle.flow_rules.specs.Vertices.{flow_order as order_of};

    ghost order = { order_of };

    fn rank(&self, other: &Flow) -> Ordering {
        self.cmp(other)
    }

    ghost total = { then_total (on_total (λ f. vertex_key f.from) nat_list_cmp_total) (on_total (λ f. vertex_key f.to) nat_list_cmp_total) };
}

/// A call of `require` with a string: the offset of its `(` in bytes, the string, and the number of the
/// function that holds it.
#[derive(Debug, Drop)]
pub struct Require {
    pub offset: u32,
    pub spec: Text,
    pub holder: u32,
}

impl Ranked for Require {
    ghost use Rattle.flow_rules.specs.Flows.{require_order};
    ghost use Rattle.std.specs.Cmp.{nat_cmp_total};

    ghost order = { require_order };

    fn rank(&self, other: &Require) -> Ordering {
        self.offset.cmp(&other.offset)
    }

    ghost total = { on_total (λ r. r.offset) nat_cmp_total };
}

/// What was left out at a place of a module.
#[derive(Clone, Copy, Debug, PartialEq, Eq, Drop)]
pub enum NoteKind {
    /// A call of `require` without a string.
    DynamicRequire,
    /// A use of `require` as a value.
    RequireValue,
}

/// Something left out, and where: the offset in bytes.
#[derive(Clone, Copy, Debug, PartialEq, Eq, Drop)]
pub struct ModuleNote {
    pub offset: u32,
    pub kind: NoteKind,
}

impl Ranked for ModuleNote {
    ghost use Rattle.flow_rules.specs.Flows.{note_order};
    ghost use Rattle.std.specs.Cmp.{nat_cmp_total};

    ghost order = { note_order };

    fn rank(&self, other: &ModuleNote) -> Ordering {
        self.offset.cmp(&other.offset)
    }

    ghost total = { on_total (λ n. n.offset) nat_cmp_total };
}
