//! The tree of the text of a module.
ghost use Rattle.std.specs.Prelude.{MatchResult};
ghost use Rattle.jam_app.specs.Texts.{IsOnlyTree};
ghost use Rattle.jam_app.specs.Stops.{HasBadCause};

use jam_base::{Place, Steps, place_of};
use js_parser::{Construct, ParseFault, parse};
use js_tree::Tree;
use std::alloc::Global;
use std::sync::ledger::Ledger;

/// How many bytes the text of a module may have.
pub(crate) const TEXT_LIMIT: usize = 8_388_608;

/// Why a text has no tree.
#[derive(Debug, Drop)]
pub(crate) enum Bad {
    /// It has so many bytes, which are too many.
    TooLarge(u64),
    /// No tree spells it; reading stopped at this place, at the word of this construct.
    Construct(Place, Construct),
    /// No tree spells it; reading stopped at this place.
    At(Place),
    /// There was no memory.
    OutOfMemory,
}

/// The tree that spells the text of a module.
pub(crate) fn tree_of<L: Ledger>(
    alloc: Global,
    text: &str,
    steps: &mut Steps<L>,
) -> Result<Tree, Bad>
    ensures { MatchResult result (IsOnlyTree text.now) (HasBadCause text.now) }
{
    match parse(alloc, text, steps) {
        Ok(tree) => Ok(tree),
        Err(ParseFault::TooLarge { length }) => Err(Bad::TooLarge(length)),
        Err(ParseFault::NotInProfile { at }) => Err(Bad::At(place_of(text, at))),
        Err(ParseFault::Construct { at, what }) => Err(Bad::Construct(place_of(text, at), what)),
        Err(ParseFault::OutOfMemory) => Err(Bad::OutOfMemory),
    }
}
