//! The symbols of a pattern.
ghost use Rattle.std.specs.Prelude.{◌≡◌, ◌⊎◌, ◌≤◌, ◌+◌, ◌∷◌, ℕ, None, Some, length, drop, take, if◌then◌else◌, MatchOption, IfOk, IfErr};
ghost use Rattle.std.specs.Str.{chars};
ghost use Rattle.tup_lex.specs.Word.{begins_with};
ghost use Rattle.tup_path.specs.Gives.{GivesUnless};
ghost use Rattle.tup_glob.specs.Read.{range, members as members_of, inner_len, set_behind, symbol_of, symbols_of, Leaves};
ghost use Rattle.tup_glob.specs.declared.fault.GlobFault.TheVariants.{Memory, OpenBracket};

use crate::chars::first_char;
use crate::fault::GlobFault;
use crate::symbol::{Range, Ranges, Symbol, Symbols};
use std::alloc::Global;

/// The symbols of a pattern, in order.
pub(crate) fn symbols(alloc: Global, pattern: &str) -> Result<Symbols, GlobFault>
    ensures { GivesUnless result Memory (symbols_of pattern.now) }
{
    let mut all = Symbols::new(alloc);
    let mut rest = pattern;
    while let Some((char, more)) = first_char(rest) {
        let (symbol, behind) = symbol(alloc, char, more)?;
        all.push(symbol)?;
        rest = behind;
    }
    Ok(all)
}

/// The symbol that begins with a character, and what follows it.
fn symbol(alloc: Global, char: char, more: &str) -> Result<(Symbol, &str), GlobFault>
    ensures ok { IfOk result (λ found.
        Leaves (symbol_of char (chars more.now)) (chars more.now) found.0 (chars found.1.now)) }
    ensures err { IfErr result (λ fault. (fault ≡ Memory)
        ⊎ ((fault ≡ OpenBracket) × (symbol_of char (chars more.now) ≡ None))) }
{
    match char {
        '*' => Ok((Symbol::Run, more)),
        '?' => Ok((Symbol::One, more)),
        '[' => set(alloc, more),
        own => Ok((Symbol::Char(own), more)),
    }
}

/// The set whose opening bracket comes before a text, and what follows its closing one.
fn set(alloc: Global, text: &str) -> Result<(Symbol, &str), GlobFault>
    ensures ok { IfOk result (λ found.
        Leaves (set_behind (chars text.now)) (chars text.now) found.0 (chars found.1.now)) }
    ensures err { IfErr result (λ fault. (fault ≡ Memory)
        ⊎ ((fault ≡ OpenBracket) × (set_behind (chars text.now) ≡ None))) }
{
    let (negated, text) = negation(text);
    match body(text) {
        Some((body, behind)) => {
            let members = members(alloc, body)?;
            Ok((Symbol::Set { negated, members }, behind))
        }
        None => Err(GlobFault::OpenBracket),
    }
}

/// Whether the text of a set begins with `^`, and what follows that.
fn negation(text: &str) -> (bool, &str)
    ensures negated { result.0 ≡ begins_with 94 (chars text.now) }
    ensures behind { chars result.1.now
        ≡ (if result.0 then drop 1 (chars text.now) else chars text.now) }
{
    match first_char(text) {
        Some(('^', more)) => (true, more),
        _ => (false, text),
    }
}

/// A text cut at the closing bracket of a set: the first `]` that isn't its first character.
fn body(text: &str) -> Option<(&str, &str)>
    ensures { MatchOption result (inner_len (chars text.now) ≡ None)
        (λ parts. (n : ℕ) × (inner_len (chars text.now) ≡ Some n)
        × (chars parts.0.now ≡ take n (chars text.now))
        × (chars parts.1.now ≡ drop (n + 1) (chars text.now))) }
{
    let (_, mut rest) = first_char(text)?;
    loop {
        let (char, behind) = first_char(rest)?;
        if char == ']' {
            return Some((&text[..text.len() - rest.len()], behind));
        }
        rest = behind;
    }
}

/// The members that the text between the brackets of a set names.
fn members(alloc: Global, text: &str) -> Result<Ranges, GlobFault>
    ensures ok { IfOk result (λ all. all ≡ members_of (chars text.now)) }
    ensures err { IfErr result (λ fault. fault ≡ Memory) }
{
    let mut all = Ranges::new(alloc);
    let mut rest = text;
    while let Some((first, more)) = first_char(rest) {
        let (last, behind) = range_end(first, more);
        all.push(Range { first, last })?;
        rest = behind;
    }
    Ok(all)
}

/// The end of the range that begins with a character, and what follows the range: the character behind
/// a `-`, or itself where none follows.
fn range_end(first: char, more: &str) -> (char, &str)
    ensures ranges { members_of (first ∷ chars more.now)
        ≡ range first result.0 ∷ members_of (chars result.1.now) }
    ensures shorter { length (chars result.1.now) ≤ length (chars more.now) }
{
    match first_char(more) {
        Some(('-', end)) => first_char(end).unwrap_or((first, more)),
        _ => (first, more),
    }
}
