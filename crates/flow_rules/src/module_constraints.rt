//! What a module says of its values.
ghost use Rattle.std.specs.Prelude.{◌≡◌, IfOk, IfSome, IfNone};
ghost use Rattle.flow_rules.specs.Rules.{KeepsRules};

use crate::copies::{copied_flows, copied_functions, copied_requires};
use crate::rules::keep_rules;
use crate::{Flow, ModuleNote, Require};
use jam_base::{List, OutOfMemory};
use js_scopes::{FunctionInfo, SiteInfo};
use std::alloc::Global;
use std::marker::Model;

/// The functions of a module, its call sites, requires and notes, and the flows between its vertices: each
/// list in its order, and without repeats.
#[derive(Debug, Drop)]
pub struct Constraints {
    pub(crate) functions: List<FunctionInfo>,
    pub(crate) sites: List<SiteInfo>,
    pub(crate) requires_: List<Require>,
    pub(crate) notes: List<ModuleNote>,
    pub(crate) flows: List<Flow>,
}

impl Model for Constraints {
    ghost use Rattle.flow_rules.specs.Constraints.{ModuleConstraints};
    ghost use Rattle.flow_rules.specs.Rules.{KeepsRules};

    ghost Value = { ModuleConstraints };

    ghost view = { λ c. record { functions = c.functions; sites = c.sites; requires_ = c.requires_; notes = c.notes; flows = c.flows } };

    ghost invariant = { λ c. KeepsRules (record { functions = c.functions; sites = c.sites; requires_ = c.requires_; notes = c.notes; flows = c.flows }) };
}

impl Constraints {
    /// What these lists say together, where they keep the rules: each list is in its order and without
    /// repeats, and has fewer than 2^32 items; the first function starts at 0; sites and requires are
    /// held by functions of the list; a flow goes from one vertex to another, and each function,
    /// parameter, site, argument or require that a vertex names is there; texts have fewer than 2^32
    /// bytes.
    pub fn of(
        functions: List<FunctionInfo>,
        sites: List<SiteInfo>,
        requires_: List<Require>,
        notes: List<ModuleNote>,
        flows: List<Flow>,
    ) -> Option<Constraints>
        ensures some { IfSome result (λ made. made ≡ record { functions = functions; sites = sites; requires_ = requires_; notes = notes; flows = flows }) }
        ensures rules { IfSome result KeepsRules }
        ensures none { IfNone result (KeepsRules (record { functions = functions; sites = sites; requires_ = requires_; notes = notes; flows = flows }) → ⊥) }
    {
        let kept = keep_rules(
            functions.as_slice(),
            sites.as_slice(),
            requires_.as_slice(),
            notes.as_slice(),
            flows.as_slice(),
        );
        if !kept {
            return None;
        }
        Some(Constraints {
            functions,
            sites,
            requires_,
            notes,
            flows,
        })
    }

    /// The functions, the module's body first and the others by their start.
    pub fn functions(&self) -> &[FunctionInfo]
        ensures { result.now ≡ self.now.functions }
    {
        self.functions.as_slice()
    }

    /// The call sites, by offset and part.
    pub fn sites(&self) -> &[SiteInfo]
        ensures { result.now ≡ self.now.sites }
    {
        self.sites.as_slice()
    }

    /// The requires, by offset.
    pub fn requires_(&self) -> &[Require]
        ensures { result.now ≡ self.now.requires_ }
    {
        self.requires_.as_slice()
    }

    /// The notes, by offset.
    pub fn notes(&self) -> &[ModuleNote]
        ensures { result.now ≡ self.now.notes }
    {
        self.notes.as_slice()
    }

    /// The flows, by their ends.
    pub fn flows(&self) -> &[Flow]
        ensures flows { result.now ≡ self.now.flows }
        ensures rules { KeepsRules self.now }
    {
        self.flows.as_slice()
    }

    /// Constraints equal to these.
    pub fn copy(&self, alloc: Global) -> Result<Constraints, OutOfMemory>
        ensures { IfOk result (λ made. made ≡ self.now) }
    {
        let functions = copied_functions(alloc, self.functions.as_slice())?;
        let sites = self.sites.as_slice().to_vec(alloc)?;
        let requires_ = copied_requires(alloc, self.requires_.as_slice())?;
        let notes = self.notes.as_slice().to_vec(alloc)?;
        let flows = copied_flows(alloc, self.flows.as_slice())?;
        Ok(Constraints {
            functions,
            sites: List::of(sites),
            requires_,
            notes: List::of(notes),
            flows,
        })
    }
}
