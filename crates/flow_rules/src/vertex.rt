//! Places that values come to.
ghost use Rattle.std.specs.Prelude.{◌≡◌, refl, slice_index, IfOk};
ghost use Rattle.std.specs.Cmp.{on_total, partial_equiv_from_equiv, partial_order_from_total};
ghost use Rattle.std.specs.Cmp.Lexicographic.{nat_list_cmp_total};
ghost use Rattle.std.specs.Ordering.{as_partial_cmp, eq_by_cmp};
ghost use Rattle.std.proofs.lemmas.Cmp.{eq_by_cmp_equiv};
ghost use Rattle.flow_rules.specs.Vertices.{is_shared, name_of, numbers_of, vertex_key, vertex_order};

use jam_base::{OutOfMemory, Text};
use std::alloc::Global;
use std::cmp::Ordering;

/// A place that values come to. `Prop`, `Elem` and `Global` are one vertex in the whole application,
/// all others belong to their module; `Var` and `Exp` alone are seen by no other module. Functions are
/// given by their number, sites by offset and part, requires by offset, arguments and parameters by
/// their index from 0.
#[derive(Debug, Drop)]
pub enum Vertex {
    /// Every property of this name, of any object.
    Prop(Text),
    /// Every element of any array or iterable, and every property without a name of its own.
    Elem,
    /// The global variable of this name.
    Global(Text),
    /// What the module exports.
    Exports,
    /// A parameter.
    Param { function: u32, index: u32 },
    /// What the rest parameter or `arguments` takes past the parameters.
    Rest { function: u32 },
    /// What the function returns.
    Ret { function: u32 },
    /// The function itself.
    Lit { function: u32 },
    /// What the site calls.
    Callee { offset: u32, part: u8 },
    /// An argument of the site.
    Arg { offset: u32, part: u8, index: u32 },
    /// What a spread and all after it hand over.
    More { offset: u32, part: u8 },
    /// The receiver, `this` of the call.
    Recv { offset: u32, part: u8 },
    /// What the call gives.
    Res { offset: u32, part: u8 },
    /// What the require gives.
    Req { offset: u32 },
    /// A declared name of the module, by its number.
    Var { local: u32 },
    /// The value of an expression, by its number.
    Exp { number: u32 },
}

impl Vertex {
    /// Whether the whole application shares it, whichever module names it.
    pub fn is_shared(&self) -> bool
        ensures { result ≡ is_shared self.now }
    {
        matches!(self, Vertex::Prop(_) | Vertex::Elem | Vertex::Global(_))
    }

    /// A vertex equal to it.
    pub fn copy(&self, alloc: Global) -> Result<Vertex, OutOfMemory>
        ensures { IfOk result (λ made. made ≡ self.now) }
    {
        Ok(match self {
            Vertex::Prop(name) => Vertex::Prop(name.copy(alloc)?),
            Vertex::Elem => Vertex::Elem,
            Vertex::Global(name) => Vertex::Global(name.copy(alloc)?),
            Vertex::Exports => Vertex::Exports,
            Vertex::Param { function, index } => Vertex::Param {
                function: *function,
                index: *index,
            },
            Vertex::Rest { function } => Vertex::Rest {
                function: *function,
            },
            Vertex::Ret { function } => Vertex::Ret {
                function: *function,
            },
            Vertex::Lit { function } => Vertex::Lit {
                function: *function,
            },
            Vertex::Callee { offset, part } => Vertex::Callee {
                offset: *offset,
                part: *part,
            },
            Vertex::Arg {
                offset,
                part,
                index,
            } => Vertex::Arg {
                offset: *offset,
                part: *part,
                index: *index,
            },
            Vertex::More { offset, part } => Vertex::More {
                offset: *offset,
                part: *part,
            },
            Vertex::Recv { offset, part } => Vertex::Recv {
                offset: *offset,
                part: *part,
            },
            Vertex::Res { offset, part } => Vertex::Res {
                offset: *offset,
                part: *part,
            },
            Vertex::Req { offset } => Vertex::Req { offset: *offset },
            Vertex::Var { local } => Vertex::Var { local: *local },
            Vertex::Exp { number } => Vertex::Exp { number: *number },
        })
    }

    // The place of its kind among the variants, from 0.
    fn kind(&self) -> u8
        ensures { result ≡ slice_index (vertex_key self.now) 0 }
    {
        match self {
            Vertex::Prop { .. } => 0,
            Vertex::Elem => 1,
            Vertex::Global { .. } => 2,
            Vertex::Exports => 3,
            Vertex::Param { .. } => 4,
            Vertex::Rest { .. } => 5,
            Vertex::Ret { .. } => 6,
            Vertex::Lit { .. } => 7,
            Vertex::Callee { .. } => 8,
            Vertex::Arg { .. } => 9,
            Vertex::More { .. } => 10,
            Vertex::Recv { .. } => 11,
            Vertex::Res { .. } => 12,
            Vertex::Req { .. } => 13,
            Vertex::Var { .. } => 14,
            Vertex::Exp { .. } => 15,
        }
    }

    // The name of a property or a global; no other has one.
    fn name(&self) -> &str
        ensures { result.now ≡ name_of self.now }
    {
        match self {
            Vertex::Prop(name) => name.as_str(),
            Vertex::Global(name) => name.as_str(),
            _ => "",
        }
    }

    // Its numbers in order, and 0 past them.
    fn numbers(&self) -> (u32, u32, u32)
        ensures { result ≡ numbers_of self.now }
    {
        match self {
            Vertex::Param { function, index } => (*function, *index, 0),
            Vertex::Rest { function } => (*function, 0, 0),
            Vertex::Ret { function } => (*function, 0, 0),
            Vertex::Lit { function } => (*function, 0, 0),
            Vertex::Callee { offset, part } => (*offset, *part as u32, 0),
            Vertex::Arg {
                offset,
                part,
                index,
            } => (*offset, *part as u32, *index),
            Vertex::More { offset, part } => (*offset, *part as u32, 0),
            Vertex::Recv { offset, part } => (*offset, *part as u32, 0),
            Vertex::Res { offset, part } => (*offset, *part as u32, 0),
            Vertex::Req { offset } => (*offset, 0, 0),
            Vertex::Var { local } => (*local, 0, 0),
            Vertex::Exp { number } => (*number, 0, 0),
            _ => (0, 0, 0),
        }
    }

    // Which of two vertices comes first, by kind and then by fields.
    fn order(&self, other: &Vertex) -> Ordering
        ensures { result ≡ vertex_order self.now other.now }
    {
        let (a, b, c) = self.numbers();
        let (x, y, z) = other.numbers();
        let by_name = self.name().cmp(other.name());
        let by_numbers = a.cmp(&x).then(b.cmp(&y)).then(c.cmp(&z));
        self.kind()
            .cmp(&other.kind())
            .then(by_name)
            .then(by_numbers)
    }
}

impl PartialEq for Vertex {
    ghost eq = { eq_by_cmp vertex_order };

    ghost laws = { partial_equiv_from_equiv (eq_by_cmp_equiv (on_total vertex_key nat_list_cmp_total)) };

    fn eq(&self, other: &Vertex) -> bool {
        self.order(other).is_eq()
    }
}

impl Eq for Vertex {
    ghost laws = { eq_by_cmp_equiv (on_total vertex_key nat_list_cmp_total) };
}

impl PartialOrd for Vertex {
    ghost partial_cmp = { as_partial_cmp vertex_order };

    ghost laws = { partial_order_from_total (on_total vertex_key nat_list_cmp_total) };

    fn partial_cmp(&self, other: &Vertex) -> Option<Ordering> {
        Some(self.order(other))
    }
}

impl Ord for Vertex {
    ghost cmp = { vertex_order };

    ghost total = { on_total vertex_key nat_list_cmp_total };

    ghost matches_partial_cmp = { λ x y. refl };

    ghost matches_eq = { λ x y. refl };

    fn cmp(&self, other: &Vertex) -> Ordering {
        self.order(other)
    }
}
