//! The laws of the least solution and of call edges.
ghost use Rattle.std.specs.Prelude.{◌≡◌, Bool, IsTrue, List};
ghost use Rattle.jam_base.specs.declared.edge.Edge.{Edge as CallEdge};
ghost use Rattle.flow_rules.specs.Constraints.{ModuleConstraints};
ghost use Rattle.composer.specs.declared.application.Link.{Link as AnyLink};
ghost use Rattle.composer.specs.declared.system.System.{System as AnySystem};
ghost use Rattle.composer.specs.Edges.{IsEdgeList};
ghost use Rattle.composer.specs.Solution.{InSolution, IsClosed, Has};

/// The solution has what stands somewhere from the start and keeps each rule, and every assignment that
/// does so has all of it: it is the least one.
pub fn least_solution<V, T>()
    ensures closed { (a : AnySystem V T) → IsClosed a (InSolution a) }
    ensures least { (a : AnySystem V T) (has : T → V → Bool) → IsClosed a (Has has) → (t : T) (v : V) → InSolution a t v → IsTrue (has t v) }
{}

/// The call edges of an application stand in at most one list.
pub fn one_edge_list()
    ensures { (modules : List ModuleConstraints) (links : List AnyLink) (xs ys : List CallEdge) → IsEdgeList modules links xs → IsEdgeList modules links ys → xs ≡ ys }
{}
