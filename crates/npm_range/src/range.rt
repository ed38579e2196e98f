//! Ranges of versions.
ghost use Rattle.std.specs.Prelude.{◌≡◌, ℕ, List, IfOk, IfErr};
ghost use Rattle.semver.specs.Identifiers.{parts_of};
ghost use Rattle.npm_range.specs.Conditions.{Condition, holds};
ghost use Rattle.npm_range.specs.Faults.{FailsAt, Gives, IfAt};
ghost use Rattle.npm_range.specs.Grammar.{IsFirstBad, Spells};

use crate::comparator::{Comparator, any_holds};
use crate::fault::RangeFault;
use crate::stretch::Stretch;
use semver::Version;
use std::alloc::Global;
use std::marker::Model;

/// A range of versions. Contracts see its alternatives in the order of the text, each the list of its
/// conditions.
#[derive(Drop)]
pub struct Range {
    alternatives: Vec<Vec<Comparator>>,
}

impl Model for Range {
    ghost use Rattle.std.specs.Prelude.{List, map};
    ghost use Rattle.npm_range.specs.Conditions.{Condition, conditions_of};

    ghost Value = { List (List Condition) };

    ghost view = { λ r. map (λ v. conditions_of v.items) r.alternatives.items };
}

/// Reads the alternatives of a text.
fn read_alternatives(alloc: Global, text: &str) -> Result<Range, RangeFault>
    ensures spelled { IfOk result (λ r. Spells text.now r) }
    ensures bad { IfErr result (λ e. IfAt e (IsFirstBad text.now)) }
{
    let mut alternatives = Vec::new(alloc);
    let mut left = Some(Stretch::whole(text));
    while let Some(stretch) = left {
        let (alternative, rest) = stretch.split_alternative();
        alternatives.push(alternative.read_alternative(alloc)?)?;
        left = rest;
    }
    Ok(Range { alternatives })
}

impl Range {
    /// Reads a range. Alternatives stand between `||`, and each is split at spaces (U+0020) into
    /// pieces: `*`, or one of `<`, `<=`, `>`, `>=`, `=` or no operator and a whole version by
    /// Semantic Versioning 2.0.0. An operator alone takes the next piece of its alternative as its
    /// version. An alternative without pieces holds for all versions. (npm manual, "semver",
    /// "Ranges".)
    ///
    /// Fails with `At` where a piece is none of these, and with `OutOfMemory`.
    pub fn read(alloc: Global, text: &str) -> Result<Range, RangeFault>
        ensures spelled { IfOk result (λ r. Spells text.now r) }
        ensures only { (range : List (List Condition)) → Spells text.now range → Gives result range }
        ensures bad { IfErr result (λ e. IfAt e (IsFirstBad text.now)) }
        ensures refused { (offset : ℕ) → IsFirstBad text.now offset → FailsAt result offset }
    {
        read_alternatives(alloc, text)
    }

    /// Whether the version meets all comparators of one of the alternatives, by the precedence of
    /// Semantic Versioning 2.0.0, item 11: a pre-release comes before its release, and build
    /// metadata counts for nothing. It takes no memory.
    pub fn holds(&self, version: &Version) -> bool
        ensures { result ≡ holds self.now (parts_of version.now) }
    {
        any_holds(&self.alternatives, version)
    }
}
