//! An alarm, by the places of what it is about.
ghost use Rattle.std.proofs.Common.{rules};
ghost use Rattle.std.specs.Cmp.{partial_order_from_own_ties};
ghost use Rattle.std.specs.Cmp.Rules.{comparing};
ghost use Rattle.std.specs.Ordering.{as_partial_cmp};
ghost use Rattle.alarms.specs.Alarms.{found_order};

use jam_base::FunctionRef;
use std::cmp::Ordering;

/// A function that an advisory names and that can be reached, in an installed package: the places of the
/// advisory and of the package in their lists, from 0, and the function. Alarms go by these, in this
/// order.
#[derive(Clone, Copy, Debug, PartialEq, Eq, Drop)]
pub struct Found {
    pub advisory: u32,
    pub entry: u32,
    pub function: FunctionRef,
}

impl Ord for Found {
    ghost cmp = { found_order };

    ghost total = { Prim.search (comparing, rules) depth 12 };

    ghost matches_partial_cmp = { Prim.search (comparing, rules) depth 12 };

    ghost matches_eq = { Prim.search (comparing, rules) depth 12 };

    fn cmp(&self, other: &Found) -> Ordering {
        let by_package = self
            .advisory
            .cmp(&other.advisory)
            .then(self.entry.cmp(&other.entry));
        by_package
            .then(self.function.module.cmp(&other.function.module))
            .then(self.function.function.cmp(&other.function.function))
    }
}

impl PartialOrd for Found {
    ghost partial_cmp = { as_partial_cmp found_order };

    ghost laws = { partial_order_from_own_ties (Prim.search (comparing, rules) depth 12) (Prim.search (comparing, rules) depth 12) };

    fn partial_cmp(&self, other: &Found) -> Option<Ordering> {
        Some(self.cmp(other))
    }
}
