//! Comparators: what one or two pieces of a range ask of a version.
ghost use Rattle.std.specs.Prelude.{◌≡◌};
ghost use Rattle.std.specs.List.{list_all, list_any};
ghost use Rattle.semver.specs.Identifiers.{parts_of};
ghost use Rattle.npm_range.specs.Conditions.{condition_of, meets, takes};
ghost use Rattle.npm_range.specs.Grammar.{or_equal as or_equal_of, split_operator as operator_of};

use crate::prefix::strip_ascii;
use semver::Version;
use std::cmp::Ordering;

/// How a version is compared with that of a comparator. Without an operator it is `Equal`.
#[derive(Clone, Copy)]
pub(crate) enum Operator {
    /// `<`
    Less,
    /// `<=`
    LessEqual,
    /// `>`
    Greater,
    /// `>=`
    GreaterEqual,
    /// `=`
    Equal,
}

/// What a range asks of a version.
#[derive(Drop)]
pub(crate) enum Comparator {
    /// Nothing: `*`.
    Any,
    /// An order against a version.
    Compared(Operator, Version),
}

impl Operator {
    /// Whether it takes this order of a version against that of the comparator.
    pub(crate) fn takes(self, order: Ordering) -> bool
        ensures { result ≡ takes self order }
    {
        match self {
            Operator::Less => order.is_lt(),
            Operator::LessEqual => order.is_le(),
            Operator::Greater => order.is_gt(),
            Operator::GreaterEqual => order.is_ge(),
            Operator::Equal => order.is_eq(),
        }
    }
}

impl Comparator {
    /// Whether the version meets it.
    pub(crate) fn holds(&self, version: &Version) -> bool
        ensures { result ≡ meets (parts_of version.now) (condition_of self.now) }
    {
        match self {
            Comparator::Any => true,
            Comparator::Compared(operator, bound) => operator.takes(version.cmp_precedence(bound)),
        }
    }
}

/// Whether the version meets all of them.
fn all_hold(comparators: &[Comparator], version: &Version) -> bool
    ensures { result ≡ list_all (λ c. meets (parts_of version.now) (condition_of c)) comparators.now }
{
    comparators.iter().all(|c| c.holds(version))
}

/// Whether the version meets all comparators of one of these alternatives.
pub(crate) fn any_holds(alternatives: &[Vec<Comparator>], version: &Version) -> bool
    ensures { result ≡ list_any (λ v. list_all (λ c. meets (parts_of version.now) (condition_of c)) v.items) alternatives.now }
{
    alternatives.iter().any(|v| all_hold(v, version))
}

/// The longer of two operators where `=` follows, and what is left.
#[tactic(auto, using(crate::proofs::Operators::operators))]
fn or_equal(short: Operator, long: Operator, rest: &str) -> (Operator, &str)
    ensures operator { result.0 ≡ (or_equal_of short long rest.now).0 }
    ensures rest { result.1.now ≡ (or_equal_of short long rest.now).1 }
{
    match strip_ascii(rest, '=') {
        Some(after) => (long, after),
        None => (short, rest),
    }
}

/// The longest operator at the front of a piece, and what follows it.
#[tactic(auto, using(crate::proofs::Operators::operators))]
pub(crate) fn split_operator(piece: &str) -> (Operator, &str)
    ensures operator { result.0 ≡ (operator_of piece.now).0 }
    ensures rest { result.1.now ≡ (operator_of piece.now).1 }
{
    if let Some(rest) = strip_ascii(piece, '<') {
        or_equal(Operator::Less, Operator::LessEqual, rest)
    } else if let Some(rest) = strip_ascii(piece, '>') {
        or_equal(Operator::Greater, Operator::GreaterEqual, rest)
    } else if let Some(rest) = strip_ascii(piece, '=') {
        (Operator::Equal, rest)
    } else {
        (Operator::Equal, piece)
    }
}
