//! Call edges between numbered functions.
ghost use Rattle.std.specs.Prelude.{◌≡◌, ◌<◌, ◌≤◌, length};
ghost use Rattle.reach_path.specs.Graphs as graphs;

use crate::numbers::number;
use jam_base::Edge;
use std::marker::Model;

/// Call edges, with numbers for their functions.
#[derive(Drop)]
pub(crate) struct Graph<'g> {
    starts: &'g [u32],
    edges: &'g [Edge],
    nodes: u32,
    begin: u32,
}

impl<'g> Model for Graph<'g> {
    ghost use Rattle.reach_path.specs.Graphs.{IsNumbered, Numbered};

    ghost Value = { Numbered };

    ghost view = { λ g. record {
      starts = g.starts.now;
      edges = g.edges.now;
      nodes = g.nodes;
      begin = g.begin;
    } };

    ghost invariant = { λ g. IsNumbered (record {
      starts = g.starts.now;
      edges = g.edges.now;
      nodes = g.nodes;
      begin = g.begin;
    }) };
}

impl<'g> Graph<'g> {
    /// The edges, with the number of each module's first function and that of the entry's body.
    pub(crate) fn of(starts: &'g [u32], edges: &'g [Edge], nodes: u32, begin: u32) -> Graph<'g>
        requires { graphs.IsNumbered (record {
          starts = starts.now;
          edges = edges.now;
          nodes = nodes;
          begin = begin;
        }) }
        ensures { result ≡ record {
          starts = starts.now;
          edges = edges.now;
          nodes = nodes;
          begin = begin;
        } }
    {
        Graph {
            starts,
            edges,
            nodes,
            begin,
        }
    }

    /// How many edges there are.
    pub(crate) fn len(&self) -> usize
        ensures is { result ≡ length self.now.edges }
        ensures few { result ≤ 4294967295 }
    {
        self.edges.len()
    }

    /// How many functions there are.
    pub(crate) fn nodes(&self) -> u32
        ensures { result ≡ self.now.nodes }
    {
        self.nodes
    }

    /// The number of the entry's body.
    pub(crate) fn begin(&self) -> u32
        ensures is { result ≡ self.now.begin }
        ensures below { result < self.now.nodes }
    {
        self.begin
    }

    /// The number of the caller of the edge at a place.
    pub(crate) fn from(&self, place: usize) -> u32
        requires { place < length self.now.edges }
        ensures is { result ≡ graphs.from self.now place }
        ensures below { result < self.now.nodes }
    {
        number(self.starts, self.edges[place].caller)
    }

    /// The number of the callee of the edge at a place.
    pub(crate) fn to(&self, place: usize) -> u32
        requires { place < length self.now.edges }
        ensures is { result ≡ graphs.to self.now place }
        ensures below { result < self.now.nodes }
    {
        number(self.starts, self.edges[place].callee)
    }

    /// The offset of the edge at a place.
    pub(crate) fn offset(&self, place: usize) -> u32
        requires { place < length self.now.edges }
        ensures { result ≡ (graphs.edge_at self.now.edges place).offset }
    {
        let edges = self.edges;
        edges[place].offset
    }
}
