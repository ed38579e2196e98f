//! What a scope declares.
ghost use Rattle.std.specs.Prelude.{◌≡◌, ◌++◌, ◌∷◌, [], map, IfOk, OnOk};
ghost use Rattle.std.specs.Option.{option_map};
ghost use Rattle.js_scopes.specs.Names.{Scope as Names, first_in};
ghost use Rattle.js_scopes.specs.Indexed.{IsIndexed, scope_starts};

use jam_base::OutOfMemory;
use js_tree::Token;
use std::alloc::Global;
use std::collections::BTreeMap;
use std::marker::Model;

// The names that a scope declares.
#[derive(Drop)]
pub(crate) struct Scope<'t> {
    // The tokens that declare in it, in the order of the text.
    tokens: Vec<&'t Token>,
    // Where each name is first declared.
    starts: BTreeMap<&'t str, u32>,
    // The same places in the order of the text.
    firsts: Vec<u32>,
}

impl<'t> Model for Scope<'t> {
    ghost use Rattle.std.specs.Prelude.{List, map};
    ghost use Rattle.js_tree.specs.declared.token.Token.{Token as GhostToken};
    ghost use Rattle.js_scopes.specs.Indexed.{IsIndexed};

    ghost Value = { List GhostToken };

    ghost view = { λ s. map (λ t. t.now) s.tokens.items };

    ghost invariant = { λ s. IsIndexed s.starts.entries s.firsts.items (map (λ t. t.now) s.tokens.items) };
}

impl<'t> Scope<'t> {
    // The scope in which these tokens declare.
    pub(crate) fn of(alloc: Global, tokens: Vec<&'t Token>) -> Result<Scope<'t>, OutOfMemory>
        ensures { IfOk result (λ s. s ≡ map (λ t. t.now) tokens.entry.items) }
    {
        let mut starts = BTreeMap::new(alloc);
        let mut firsts = Vec::new(alloc);
        for token in tokens.as_slice() {
            keep(token, &mut starts, &mut firsts)?;
        }
        Ok(Scope {
            tokens,
            starts,
            firsts,
        })
    }

    // The offset of the first token that declares the name in it.
    pub(crate) fn start_of(&self, name: &str) -> Option<u32>
        ensures { result ≡ option_map (λ t. t.start) (first_in name.now self.now) }
    {
        self.starts.get(name).copied()
    }

    // Adds the offsets of the first tokens of its names.
    pub(crate) fn push_firsts(&self, out: &mut Vec<u32>) -> Result<(), OutOfMemory>
        ensures { OnOk result (out.new.items ≡ out.old.items ++ scope_starts self.now) }
    {
        out.extend_from_slice(self.firsts.as_slice())?;
        Ok(())
    }
}

// Keeps the token, unless one before it declares the name.
fn keep<'t>(
    token: &'t Token,
    starts: &mut BTreeMap<&'t str, u32>,
    firsts: &mut Vec<u32>,
) -> Result<(), OutOfMemory>
    ensures { (before : Names) → IsIndexed starts.old.entries firsts.old.items before → OnOk result (IsIndexed starts.new.entries firsts.new.items (before ++ token.now ∷ [])) }
{
    let name = token.text.as_str();
    if starts.contains_key(name) {
        return Ok(());
    }
    starts.insert(name, token.start)?;
    firsts.push(token.start)?;
    Ok(())
}
