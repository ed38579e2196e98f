//! Stretches of a range's text, and how pieces are taken off them.
ghost use Rattle.std.specs.Prelude.{◌≡◌, ◌+◌, ◌<◌, ◌^◌, ◌≤◌, List, length, take, drop, MatchOption, IfOk, IfErr, IfSome};
ghost use Rattle.std.specs.List.{position_or_len};
ghost use Rattle.npm_range.specs.Conditions.{Condition, condition_of, conditions_of};
ghost use Rattle.npm_range.specs.Faults.{IfAt};
ghost use Rattle.npm_range.specs.Grammar.{EndsConditions, IsFront, NextCondition, ReadsAlternative, is_space, past_piece, past_spaces, piece};

use crate::comparator::{Comparator, split_operator};
use crate::fault::RangeFault;
use crate::prefix::strip_ascii;
use semver::Version;
use std::alloc::{AllocError, Global};
use std::marker::Model;

/// A stretch of a text, and the offset in bytes at which it begins.
#[derive(Drop)]
pub(crate) struct Stretch<'t> {
    at: usize,
    text: &'t str,
}

impl<'t> Model for Stretch<'t> {
    ghost use Rattle.std.specs.Prelude.{◌+◌, ◌<◌, ◌^◌, length};
    ghost use Rattle.npm_range.specs.Grammar.{Stretch as Placed};

    ghost Value = { Placed };

    ghost view = { λ s. record { at = s.at; text = s.text.now } };

    ghost invariant = { λ s. s.at + length s.text.now < 2 ^ 64 };
}

/// The fault of a bad piece that begins at this offset.
fn bad_piece(offset: usize) -> RangeFault
    ensures { IfAt result (λ n. n ≡ offset) }
{
    match u32::try_from(offset) {
        Ok(offset) => RangeFault::At { offset },
        Err(_) => RangeFault::OutOfMemory,
    }
}

/// What stands before the first space of a text, and the rest from that space on.
fn split_at_space(text: &str) -> (&str, &str)
    ensures front { result.0.now ≡ take (position_or_len is_space text.now) text.now }
    ensures width { length result.0.now ≡ position_or_len is_space text.now }
    ensures back { result.1.now ≡ drop (position_or_len is_space text.now) text.now }
{
    match text.find(' ') {
        Some(end) => text.split_at(end),
        None => (text, ""),
    }
}

impl<'t> Stretch<'t> {
    /// The whole text.
    pub(crate) fn whole(text: &'t str) -> Stretch<'t>
        ensures { result ≡ record { at = 0; text = text.now } }
    {
        Stretch { at: 0, text }
    }

    /// Leaves out the spaces at its front.
    fn skip_spaces(&mut self)
        ensures { self.new ≡ past_spaces self.old }
    {
        while let Some(rest) = strip_ascii(self.text, ' ') {
            self.text = rest;
            self.at += 1;
        }
    }

    /// Takes the next piece off its front.
    fn take_piece(&mut self) -> Stretch<'t>
        ensures taken { result ≡ piece self.old }
        ensures left { self.new ≡ past_piece self.old }
        ensures shorter { length self.new.text + length result.text ≤ length self.old.text }
    {
        self.skip_spaces();
        let (text, rest) = split_at_space(self.text);
        let taken = Stretch { at: self.at, text };
        self.at += text.len();
        self.text = rest;
        taken
    }

    /// Takes the next comparator off its front. None where no piece is left.
    fn take_comparator(&mut self, alloc: Global) -> Result<Option<Comparator>, RangeFault>
        ensures read { IfOk result (λ o. MatchOption o (EndsConditions self.old None) (λ c. NextCondition self.old (condition_of c) self.new)) }
        ensures shorter { IfOk result (λ o. IfSome o (λ _. length self.new.text < length self.old.text)) }
        ensures bad { IfErr result (λ e. IfAt e (λ n. EndsConditions self.old (Some n))) }
    {
        let first = self.take_piece();
        if first.text.is_empty() {
            return Ok(None);
        }
        if first.text == "*" {
            return Ok(Some(Comparator::Any));
        }
        let (operator, rest) = split_operator(first.text);
        let version = if rest.is_empty() {
            self.take_piece().text
        } else {
            rest
        };
        match Version::parse(alloc, version) {
            Ok(version) => Ok(Some(Comparator::Compared(operator, version))),
            Err(error) if error == semver::Error::from(AllocError) => Err(RangeFault::OutOfMemory),
            Err(_) => Err(bad_piece(first.at)),
        }
    }

    /// The comparators of an alternative.
    pub(crate) fn read_alternative(mut self, alloc: Global) -> Result<Vec<Comparator>, RangeFault>
        ensures read { IfOk result (λ v. ReadsAlternative self.entry (conditions_of v.items) None) }
        ensures bad { IfErr result (λ e. IfAt e (λ n. (before : List Condition) × ReadsAlternative self.entry before (Some n))) }
    {
        let mut comparators = Vec::new(alloc);
        while let Some(comparator) = self.take_comparator(alloc)? {
            comparators.push(comparator)?;
        }
        Ok(comparators)
    }

    /// Splits it into the alternative at its front and what follows the `||` after it.
    pub(crate) fn split_alternative(self) -> (Stretch<'t>, Option<Stretch<'t>>)
        ensures { IsFront self.entry result.0 result.1 }
    {
        match self.text.split_once("||") {
            Some((front, rest)) => (
                Stretch {
                    at: self.at,
                    text: front,
                },
                Some(Stretch {
                    at: self.at + front.len() + 2,
                    text: rest,
                }),
            ),
            None => (self, None),
        }
    }
}
