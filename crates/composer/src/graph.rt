//! A call graph.
ghost use Rattle.std.specs.Prelude.{◌≡◌, ◌≤◌, length};
ghost use Rattle.composer.specs.Graphs.{CallGraph};
ghost use Rattle.composer.specs.Numbers.{values_of};

use crate::application::{ModuleVertex, Value};
use crate::numbers::Vertices;
use crate::system::Callable;
use jam_base::{Edge, List};
use set_pool::SetPool;
use std::marker::Model;

/// The call graph of an application. Contracts see its edges, how many functions there are, and which
/// values come to which interface vertices.
#[derive(Drop)]
pub struct Graph {
    edges: List<Edge>,
    functions: List<Callable<ModuleVertex, Value>>,
    vertices: Vertices,
    sets: SetPool,
}

impl Model for Graph {
    ghost use Rattle.std.specs.Prelude.{◌≤◌, length};
    ghost use Rattle.composer.specs.Graphs.{CallGraph};
    ghost use Rattle.composer.specs.Numbers.{values_of};

    ghost Value = { CallGraph };

    ghost view = { λ g. record { edges = g.edges; functions = length g.functions; values = values_of g.functions g.vertices g.sets.sets } };

    ghost invariant = { λ g. length g.functions ≤ 4294967295 };
}

impl Graph {
    /// The graph with these edges, where the sets have the numbers of what comes to the vertices.
    pub(crate) fn of(
        edges: Vec<Edge>,
        functions: List<Callable<ModuleVertex, Value>>,
        vertices: Vertices,
        sets: SetPool,
    ) -> Graph
        requires { length functions ≤ 4294967295 }
        ensures { result ≡ record { edges = edges.items; functions = length functions; values = values_of functions vertices sets.sets } }
    {
        Graph {
            edges: List::of(edges),
            functions,
            vertices,
            sets,
        }
    }

    /// The edges, each once, by the caller's module, the offset, the callee and the caller.
    pub fn edges(&self) -> &[Edge]
        ensures { result.now ≡ self.now.edges }
    {
        self.edges.as_slice()
    }

    /// How many functions the modules have together.
    pub fn functions(&self) -> u32
        ensures { result ≡ self.now.functions }
    {
        self.functions.as_slice().len() as u32
    }
}
