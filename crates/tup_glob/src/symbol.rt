//! What a glob is made of.
ghost use Rattle.std.specs.Prelude.{◌≡◌};
ghost use Rattle.std.specs.List.{list_any};
ghost use Rattle.tup_glob.specs.Symbol.{accepts, holds, is_literal};

use tup_path::Items;

/// The characters from `first` up to `last`, both of them members. Where `last` comes before `first`
/// there are none.
#[derive(Clone, Copy)]
pub struct Range {
    pub first: char,
    pub last: char,
}

/// A list of ranges.
pub type Ranges = Items<Range>;

/// A part of a glob.
#[derive(Drop)]
pub enum Symbol {
    /// A character that stands for itself.
    Char(char),
    /// `*`: any run of characters, also an empty one.
    Run,
    /// `?`: one character.
    One,
    /// One character that lies in one of the ranges, or with `negated` in none.
    Set { negated: bool, members: Ranges },
}

/// A list of symbols.
pub type Symbols = Items<Symbol>;

impl Symbol {
    /// Whether it stands for itself.
    pub(crate) fn is_literal(&self) -> bool
        ensures { result ≡ is_literal self.now }
    {
        matches!(self, Symbol::Char(_))
    }

    /// Whether it may stand for this character, or a run of which this is one.
    pub(crate) fn accepts(&self, char: char) -> bool
        ensures { result ≡ accepts self.now char }
    {
        match self {
            Symbol::Char(own) => *own == char,
            Symbol::Run | Symbol::One => true,
            Symbol::Set { negated, members } => *negated != has_member(members.as_slice(), char),
        }
    }
}

fn has_member(ranges: &[Range], char: char) -> bool
    ensures { result ≡ list_any (λ range. holds range char) ranges.now }
{
    ranges
        .iter()
        .any(|range| range.first <= char && char <= range.last)
}
