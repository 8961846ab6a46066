//! Whether symbols match a name, and where.
//!
//! The runs of a pattern part the other symbols. These take one character each, so it is plain what a
//! stretch of them leaves of a name. Behind a run each stretch is put at the first place where it
//! fits: what it leaves there has all that it would leave at a later place, so no other place is tried.
ghost use Rattle.std.specs.Prelude.{◌≡◌, None, Some, ◌∷◌, length, MatchOption, IfSome, false, ◌<◌};
ghost use Rattle.std.specs.Str.{chars};
ghost use Rattle.tup_glob.specs.Match.{first_rest, matches as matched};
ghost use Rattle.tup_glob.specs.Fit.{fit as fitted, behind_run as others_of, first_fit as first_place, match_left};
ghost use Rattle.tup_glob.specs.Part.{part_of};
ghost use Rattle.tup_glob.specs.Symbol.{is_literal};

use crate::chars::{behind_char, first_char, last_char};
use crate::symbol::Symbol;

/// What the symbols before the first run leave of a name, if they fit at its front; without a run they
/// have to leave nothing.
fn fit<'n>(symbols: &[Symbol], name: &'n str) -> Option<&'n str>
    ensures { MatchOption result (fitted symbols.now (chars name.now) ≡ None)
        (λ rest. fitted symbols.now (chars name.now) ≡ Some (chars rest.now)) }
{
    let mut rest = name;
    for symbol in symbols {
        if let Symbol::Run = symbol {
            return Some(rest);
        }
        let (char, behind) = first_char(rest)?;
        if !symbol.accepts(char) {
            return None;
        }
        rest = behind;
    }
    if rest.is_empty() { Some(rest) } else { None }
}

/// The first place in a name at which the symbols before the first run fit, and what they leave there.
fn first_fit<'n>(symbols: &[Symbol], name: &'n str) -> Option<(&'n str, &'n str)>
    ensures { MatchOption result (first_place symbols.now (chars name.now) ≡ None)
        (λ found. (first_place symbols.now (chars name.now) ≡ Some (chars found.0.now))
        × (fitted symbols.now (chars found.0.now) ≡ Some (chars found.1.now))) }
{
    let mut place = name;
    'places: loop {
        if let Some(rest) = fit(symbols, place) {
            return Some((place, rest));
        }
        let (_, behind) = first_char(place)?;
        place = behind;
    }
}

/// The symbols behind the first run.
fn behind_run(symbols: &[Symbol]) -> Option<&[Symbol]>
    ensures others { MatchOption result (others_of symbols.now ≡ None)
        (λ others. others_of symbols.now ≡ Some others.now) }
    ensures fewer { IfSome result (λ others. length others.now < length symbols.now) }
{
    for (index, symbol) in symbols.iter().enumerate() {
        if let Symbol::Run = symbol {
            return Some(&symbols[index + 1..]);
        }
    }
    None
}

/// Whether the symbols from the first run on match what those before it left.
fn others_match(mut symbols: &[Symbol], mut left: &str) -> bool
    ensures { result ≡ match_left (others_of symbols.now) (chars left.now) }
{
    while let Some(others) = behind_run(symbols) {
        let Some((_, rest)) = first_fit(others, left) else {
            return false;
        };
        symbols = others;
        left = rest;
    }
    true
}

/// Whether the last symbol may stand for the last character of a name. Where it may not, the symbols don't match the name.
fn may_end(symbols: &[Symbol], name: &str) -> bool
    ensures { result ≡ false → matched symbols.now (chars name.now) ≡ false }
{
    let Some(symbol) = symbols.last() else {
        return true;
    };
    let Some((_, char)) = last_char(name) else {
        return true;
    };
    symbol.accepts(char)
}

/// Whether the symbols match the whole name. Most names in a folder end otherwise than a pattern such as `*.c`, so the end is looked
/// at first.
pub(crate) fn matches(symbols: &[Symbol], name: &str) -> bool
    ensures { result ≡ matched symbols.now (chars name.now) }
{
    if !may_end(symbols, name) {
        return false;
    }
    match fit(symbols, name) {
        Some(left) => others_match(symbols, left),
        None => false,
    }
}

/// What the shortest run that lets the symbols match the rest leaves of a name.
fn shortest_run<'n>(symbols: &[Symbol], name: &'n str) -> Option<&'n str>
    ensures { MatchOption result (first_rest (matched symbols.now) (chars name.now) ≡ None)
        (λ rest. first_rest (matched symbols.now) (chars name.now) ≡ Some (chars rest.now)) }
{
    let (place, left) = first_fit(symbols, name)?;
    if others_match(symbols, left) {
        Some(place)
    } else {
        None
    }
}

/// What the part that an operator takes at the front of a name leaves of it; the symbols behind the
/// operator match that.
fn behind_operator<'n>(operator: &Symbol, others: &[Symbol], name: &'n str) -> Option<&'n str>
    requires { is_literal operator.now ≡ false }
    ensures { MatchOption result (part_of (operator.now ∷ others.now) (chars name.now) ≡ None)
        (λ behind. part_of (operator.now ∷ others.now) (chars name.now)
        ≡ Some (chars name.now, chars behind.now)) }
{
    match operator {
        Symbol::Run => shortest_run(others, name),
        single => {
            let (char, behind) = first_char(name)?;
            if single.accepts(char) && matches(others, behind) {
                Some(behind)
            } else {
                None
            }
        }
    }
}

/// The part of a name that the first operator takes, as what is left from its begin on and behind it,
/// where the symbols match the name.
pub(crate) fn part<'n>(symbols: &[Symbol], name: &'n str) -> Option<(&'n str, &'n str)>
    ensures { MatchOption result (part_of symbols.now (chars name.now) ≡ None)
        (λ part. part_of symbols.now (chars name.now) ≡ Some (chars part.0.now, chars part.1.now)) }
{
    let mut from = name;
    for (index, symbol) in symbols.iter().enumerate() {
        match symbol {
            Symbol::Char(own) => from = behind_char(*own, from)?,
            operator => {
                let behind = behind_operator(operator, &symbols[index + 1..], from)?;
                return Some((from, behind));
            }
        }
    }
    None
}
