//! Where the ways of values lead, vertex by vertex.
ghost use Rattle.std.specs.Prelude.{◌≡◌, ◌<◌, ◌++◌, ◌∷◌, [], length, replicate, slice_set, ℕ, All, IfOk, OnOk};
ghost use Rattle.composer.specs.Numbered.{Below, IsArrowIn};
ghost use Rattle.composer.specs.Rows.{row};
ghost use Rattle.composer.specs.Work.{targets_from};

use crate::system::Arrow;
use std::alloc::{AllocError, Global};
use std::marker::Model;

/// A list of numbers.
#[derive(Drop)]
pub(crate) struct Row {
    values: Vec<u32>,
}

impl Model for Row {
    ghost use Rattle.std.specs.Prelude.{List, ℕ};

    ghost Value = { List ℕ };

    ghost view = { λ r. r.values.items };
}

impl Row {
    fn new(alloc: Global) -> Row
        ensures { result ≡ [] }
    {
        Row {
            values: Vec::new(alloc),
        }
    }

    fn as_slice(&self) -> &[u32]
        ensures { result.now ≡ self.now }
    {
        self.values.as_slice()
    }

    fn push(&mut self, value: u32) -> Result<(), AllocError>
        ensures { OnOk result (self.new ≡ self.old ++ value ∷ []) }
    {
        self.values.push(value)?;
        Ok(())
    }
}

/// For each vertex a list of numbers, repeats allowed.
#[derive(Drop)]
pub(crate) struct Targets {
    rows: Vec<Row>,
}

impl Model for Targets {
    ghost use Rattle.std.specs.Prelude.{List, ℕ};

    ghost Value = { List (List ℕ) };

    ghost view = { λ s. s.rows.items };
}

impl Targets {
    fn new(alloc: Global, count: u32) -> Result<Targets, AllocError>
        ensures { IfOk result (λ targets. targets ≡ replicate count []) }
    {
        let mut rows = Vec::new(alloc);
        for _ in 0..count {
            rows.push(Row::new(alloc))?;
        }
        Ok(Targets { rows })
    }

    /// The numbers of one list, none for a number past the lists.
    pub(crate) fn of(&self, vertex: u32) -> &[u32]
        ensures { result.now ≡ row self.now vertex }
    {
        match self.rows.as_slice().get(vertex as usize) {
            Some(row) => row.as_slice(),
            None => &[],
        }
    }

    /// Adds to one list.
    pub(crate) fn push(&mut self, vertex: u32, target: u32) -> Result<(), AllocError>
        requires { vertex < length self.old }
        ensures { OnOk result (self.new ≡ slice_set self.old vertex (row self.old vertex ++ target ∷ [])) }
    {
        self.rows[vertex as usize].push(target)
    }
}

/// Where the ways from each vertex lead.
pub(crate) fn targets_of(
    alloc: Global,
    ways: &[Arrow<u32>],
    count: u32,
) -> Result<Targets, AllocError>
    requires { All (λ way. way.from < count) ways.now }
    ensures count { IfOk result (λ targets. length targets ≡ count) }
    ensures targets { IfOk result (λ targets. (v : ℕ) → row targets v ≡ targets_from v ways.now) }
{
    let mut targets = Targets::new(alloc, count)?;
    for way in ways {
        targets.push(way.from, way.to)?;
    }
    Ok(targets)
}
