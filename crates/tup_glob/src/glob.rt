//! A glob.
ghost use Rattle.std.specs.Prelude.{List, ◌≡◌, ◌⊎◌, ◌↔◌, ◌<◌, ◌^◌, ◌&&◌, not, is_some, length, IsTrue, IfSome};
ghost use Rattle.std.specs.List.{list_all};
ghost use Rattle.std.specs.Str.{chars};
ghost use Rattle.tup_glob.specs.Cut.{CanBeCut, IsMatchedPart};
ghost use Rattle.tup_glob.specs.Match.{matches as matched};
ghost use Rattle.tup_glob.specs.Part.{matched_part};
ghost use Rattle.tup_glob.specs.Symbol.{is_literal};
ghost use Rattle.tup_glob.specs.Read.{symbols_of};
ghost use Rattle.tup_path.specs.Gives.{GivesUnless};
ghost use Rattle.tup_glob.specs.Spelling.{Spells};
ghost use Rattle.tup_glob.specs.declared.fault.GlobFault.TheVariants.{Memory};
ghost use Rattle.tup_glob.specs.declared.symbol.Symbol.{Symbol};

use crate::fault::GlobFault;
use crate::fit::{matches, part};
use crate::read::symbols;
use crate::symbol::Symbols;
use std::alloc::Global;
use std::marker::Model;
use tup_lex::Span;
use tup_path::Text;

/// A pattern that names match or don't. Contracts see its symbols.
///
/// In a set a `^` that comes first is the sign that it is negated. A `]` that comes first behind that is
/// a member, and the next `]` closes the set. A `-` between two characters makes a range of them, which
/// has no members where the second comes before the first; elsewhere a `-` is itself. No character
/// takes away another's meaning: a backslash stands for itself.
#[derive(Drop)]
pub struct Glob {
    symbols: Symbols,
}

impl Model for Glob {
    ghost use Rattle.std.specs.Prelude.{List};
    ghost use Rattle.tup_glob.specs.declared.symbol.Symbol.{Symbol};

    ghost Value = { List Symbol };

    ghost view = { λ g. g.symbols };
}

impl Glob {
    /// Reads a pattern. A `[` that no `]` closes is refused as `OpenBracket`.
    pub fn read(alloc: Global, pattern: &Text) -> Result<Glob, GlobFault>
        ensures value { GivesUnless result Memory (symbols_of pattern.now) }
        ensures spelled { (symbols : List Symbol)
            → ((symbols_of pattern.now ≡ Ok symbols) ↔ Spells symbols (chars pattern.now)) }
    {
        Ok(Glob {
            symbols: symbols(alloc, pattern.as_str())?,
        })
    }

    /// Whether the whole name matches. Letters differ from their capitals, and a dot in front is a
    /// character as any other.
    ///
    /// It takes no memory. The steps grow as the number of symbols times the number of characters in the
    /// name, however many `*` there are.
    pub fn matches(&self, name: &Text) -> bool
        ensures value { result ≡ matched self.now (chars name.now) }
        ensures cut { IsTrue result ↔ CanBeCut self.now (chars name.now) }
    {
        matches(self.symbols.as_slice(), name.as_str())
    }

    /// What the first operator of the pattern, a `*`, a `?` or a set, stands for in a name: its place in
    /// the name's bytes. For a `*` it is the shortest run that lets the rest match.
    ///
    /// `None` where the name doesn't match or the pattern has no operator. The steps grow as those of
    /// `matches`.
    pub fn matched_part(&self, name: &Text) -> Option<Span>
        requires { length name.now < 2 ^ 32 }
        ensures value { result ≡ matched_part self.now name.now }
        ensures some { is_some result
            ≡ (matched self.now (chars name.now) && not (list_all is_literal self.now)) }
        ensures cut { IfSome result (IsMatchedPart self.now (chars name.now)) }
    {
        let name = name.as_str();
        let (from, behind) = part(self.symbols.as_slice(), name)?;
        Some(Span {
            from: (name.len() - from.len()) as u32,
            to: (name.len() - behind.len()) as u32,
        })
    }

    /// Whether the pattern has no operator: each of its characters stands for itself.
    pub fn is_plain(&self) -> bool
        ensures { result ≡ list_all is_literal self.now }
    {
        self.symbols
            .as_slice()
            .iter()
            .all(|symbol| symbol.is_literal())
    }
}
