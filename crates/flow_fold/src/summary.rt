//! What is kept of a module.
ghost use Rattle.std.specs.Prelude.{◌≡◌, ◌<◌, ◌≤◌, length, IfOk, IfSome, IfNone};
ghost use Rattle.std.specs.List.Sorted.{IsStrictlySortedBy};
ghost use Rattle.flow_rules.specs.Flows.{require_order};
ghost use Rattle.flow_fold.specs.Summaries.{IsSummary};

use flow_rules::{Constraints, Flow, ModuleNote, Require};
use jam_base::OutOfMemory;
use js_scopes::{FunctionInfo, SiteInfo};
use std::alloc::Global;
use std::marker::Model;

/// What is kept of a module: its lists, whose flows may be fewer than those that its text gives, and how
/// many these are.
#[derive(Debug, Drop)]
pub struct Summary {
    constraints: Constraints,
    made: u32,
}

impl Model for Summary {
    ghost use Rattle.flow_fold.specs.Summaries.{IsSummary, ModuleSummary};

    ghost Value = { ModuleSummary };

    ghost view = { λ s. record { lists = s.constraints; made = s.made } };

    ghost invariant = { λ s. IsSummary (record { lists = s.constraints; made = s.made }) };
}

impl Summary {
    /// The summary that has these lists as its own, where the module's text gives so many flows. None
    /// exactly where the lists have more.
    pub fn of(
        alloc: Global,
        constraints: Constraints,
        made: u32,
    ) -> Result<Option<Summary>, OutOfMemory>
        ensures some { IfOk result (λ found. IfSome found (λ s. s ≡ record { lists = constraints; made = made })) }
        ensures few { IfOk result (λ found. IfSome found (λ s. length constraints.flows ≤ made)) }
        ensures none { IfOk result (λ found. IfNone found (made < length constraints.flows)) }
    {
        if constraints.flows().len() > made as usize {
            return Ok(None);
        }
        Ok(Some(Summary { constraints, made }))
    }

    // The summary that keeps every flow.
    pub(crate) fn whole(constraints: Constraints) -> Summary
        ensures { result ≡ record { lists = constraints; made = length constraints.flows } }
    {
        let made = constraints.flows().len() as u32;
        Summary { constraints, made }
    }

    /// A summary equal to it.
    pub fn copy(&self, alloc: Global) -> Result<Summary, OutOfMemory>
        ensures { IfOk result (λ made. made ≡ self.now) }
    {
        Ok(Summary {
            constraints: self.constraints.copy(alloc)?,
            made: self.made,
        })
    }

    /// The functions, the module's body first and the others by their start.
    pub fn functions(&self) -> &[FunctionInfo]
        ensures functions { result.now ≡ self.now.lists.functions }
        ensures keeps { IsSummary self.now }
    {
        self.constraints.functions()
    }

    /// The call sites, by offset and part.
    pub fn sites(&self) -> &[SiteInfo]
        ensures { result.now ≡ self.now.lists.sites }
    {
        self.constraints.sites()
    }

    /// The requires, by offset.
    pub fn requires_(&self) -> &[Require]
        ensures requires_ { result.now ≡ self.now.lists.requires_ }
        ensures ascend { IsStrictlySortedBy require_order result.now }
    {
        self.constraints.requires_()
    }

    /// The notes, by offset.
    pub fn notes(&self) -> &[ModuleNote]
        ensures { result.now ≡ self.now.lists.notes }
    {
        self.constraints.notes()
    }

    /// The flows, by their ends. Those that are internal to the module may differ from the flows that its
    /// text gives.
    pub fn flows(&self) -> &[Flow]
        ensures flows { result.now ≡ self.now.lists.flows }
        ensures few { length result.now ≤ self.now.made }
    {
        self.constraints.flows()
    }

    /// How many flows the module's text gives.
    pub fn made(&self) -> u32
        ensures { result ≡ self.now.made }
    {
        self.made
    }
}
