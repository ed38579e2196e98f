//! What is at hand of a module.
ghost use Rattle.std.specs.Prelude.{◌≡◌, ◌<◌, ℕ, ◌==◌, length, if◌then◌else◌, IfOk, OnOk};
ghost use Rattle.js_scopes.specs.AtHand.{known_in};
ghost use Rattle.flow_rules.specs.Places.{is_placed, number_in, place_or};
ghost use Rattle.flow_rules.specs.Numbered.{place_in};
ghost use Rattle.flow_rules.specs.Values.{name_vertex, token_vertex};

use crate::Vertex;
use jam_base::{OutOfMemory, Text};
use js_scopes::{Binding, Known, WrapperName};
use js_tree::Token;
use std::alloc::Global;
use std::collections::BTreeMap;
use std::marker::Model;

/// What is known of a module, the numbers of its numbered expressions by the offsets of tokens of their
/// own, and the functions whose `arguments` are used.
#[derive(Drop)]
pub(crate) struct Facts<'m> {
    pub(crate) known: &'m Known<'m>,
    pub(crate) numbers: &'m Numbers,
    pub(crate) arguments: &'m Numbers,
}

/// The places of numbers in a list.
#[derive(Drop)]
pub(crate) struct Numbers {
    places: BTreeMap<u32, u32>,
    count: u32,
}

impl Model for Numbers {
    ghost use Rattle.flow_rules.specs.Places.{Places};

    ghost Value = { Places };

    ghost view = { λ n. record { entries = n.places.entries; count = n.count } };
}

impl Numbers {
    /// Each number by its first place in the list.
    pub(crate) fn of(alloc: Global, numbered: Vec<u32>) -> Result<Numbers, OutOfMemory>
        requires { length numbered.items < 4294967296 }
        ensures places { IfOk result (λ made. (offset : ℕ) → number_in made offset ≡ place_in numbered.items offset) }
        ensures count { IfOk result (λ made. made.count ≡ length numbered.items) }
    {
        let count = numbered.len() as u32;
        Ok(Numbers {
            places: places_of(alloc, numbered)?,
            count,
        })
    }

    /// Whether the number is in the list.
    pub(crate) fn has(&self, item: u32) -> bool
        ensures { result ≡ is_placed self.now item }
    {
        self.of_offset(item) < self.count
    }

    /// The place of the offset, or how many there are.
    pub(crate) fn of_offset(&self, offset: u32) -> u32
        ensures { result ≡ number_in self.now offset }
    {
        match self.places.get(&offset) {
            Some(number) => *number,
            None => self.count,
        }
    }
}

// The first place of each offset.
fn places_of(alloc: Global, mut numbered: Vec<u32>) -> Result<BTreeMap<u32, u32>, OutOfMemory>
    requires { length numbered.items < 4294967296 }
    ensures { IfOk result (λ made. (offset : ℕ) → place_or made.entries offset (length numbered.items) ≡ place_in numbered.items offset) }
{
    let mut places = BTreeMap::new(alloc);
    while let Some(offset) = numbered.pop() {
        put(offset, numbered.len() as u32, &mut places)?;
    }
    Ok(places)
}

// Keeps the place of the offset, instead of what was kept of it.
fn put(offset: u32, place: u32, places: &mut BTreeMap<u32, u32>) -> Result<(), OutOfMemory>
    ensures { OnOk result ((q other : ℕ) → place_or places.new.entries q other ≡ (if offset == q then place else place_or places.old.entries q other)) }
{
    places.insert(offset, place)?;
    Ok(())
}

/// Where the values of the name that is this token stand.
pub(crate) fn token_vertex(
    alloc: Global,
    known: &Known<'_>,
    token: &Token,
) -> Result<Option<Vertex>, OutOfMemory>
    ensures { IfOk result (λ v. v ≡ token_vertex (known_in known.now) token.now) }
{
    name_vertex(alloc, known.binding(token), &token.text)
}

// Where the values of a name with this meaning stand.
fn name_vertex(alloc: Global, binding: Binding, name: &Text) -> Result<Option<Vertex>, OutOfMemory>
    ensures { IfOk result (λ v. v ≡ name_vertex binding name.now) }
{
    match binding {
        Binding::Local(local) => Ok(Some(Vertex::Var { local })),
        Binding::Wrapper(WrapperName::Exports) => Ok(Some(Vertex::Exports)),
        Binding::Wrapper(_) => Ok(None),
        Binding::Arguments(_) => Ok(None),
        Binding::Global => Ok(Some(Vertex::Global(name.copy(alloc)?))),
    }
}
