//! The law of paths.
ghost use Rattle.std.specs.Prelude.{◌≡◌, ℕ, List};
ghost use Rattle.jam_base.specs.declared.edge.Edge.{Edge as CallEdge};
ghost use Rattle.jam_base.specs.declared.edge.FunctionRef.{FunctionRef as AnyFunction};
ghost use Rattle.reach_path.specs.Levels.{IsPath};

/// A function has at most one path.
pub fn one_path()
    ensures { (edges : List CallEdge) (entry : ℕ) (f : AnyFunction) (xs ys : List CallEdge)
        → IsPath edges entry f xs → IsPath edges entry f ys → xs ≡ ys }
{}
