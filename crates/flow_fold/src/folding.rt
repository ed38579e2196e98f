//! The summary of a module.
ghost use Rattle.std.specs.Prelude.{◌≡◌, IfOk};
ghost use Rattle.flow_fold.specs.Folds.{Folds};

use crate::Summary;
use flow_rules::Constraints;
use jam_base::OutOfMemory;
use std::alloc::Global;

/// The summary of a module with these constraints. It keeps every flow.
pub fn fold(alloc: Global, constraints: Constraints) -> Result<Summary, OutOfMemory>
    ensures folds { IfOk result (Folds constraints) }
    ensures whole { IfOk result (λ s. s.lists ≡ constraints) }
{
    Ok(Summary::whole(constraints))
}
