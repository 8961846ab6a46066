//! Texts with their percent flags put in.
ghost use Rattle.std.specs.Prelude.{◌≡◌, ◌++◌, ◌∷◌, [], IfOk, OnOk};
ghost use Rattle.tup_rule_line.specs.Flagged as specs;
ghost use Rattle.tup_query.specs.Went.{Gives, IsRefusal};
ghost use Rattle.tup_query.specs.declared.fault.ReadEnd.TheVariants.{Memory};

use std::alloc::{AllocError, Global};
use tup_flags::{FlagFault, FlagParts, Place, expand};
use tup_lex::ParseKind;
use tup_path::{Items, Path, Text};
use tup_query::{ReadEnd, Spot};
use tup_rule::{Piece, Pieces};

/// A text with its percent flags put in.
pub(crate) fn flagged(
    alloc: Global,
    at: &Spot,
    parts: &FlagParts,
    text: &Text,
) -> Result<Pieces, ReadEnd>
    ensures { Gives (specs.flagged at.now parts.now text.now) result }
{
    match expand(alloc, text, parts) {
        Ok(pieces) => Ok(pieces),
        Err(fault) => Err(flag_end(at, fault)),
    }
}

/// The end with a refusal of percent flags.
fn flag_end(at: &Spot, fault: FlagFault) -> ReadEnd
    ensures refusal { IsRefusal at.now (specs.flag_kind fault) result }
    ensures memory { fault ≡ FlagFault.Memory → result ≡ Memory }
{
    let kind = match fault {
        FlagFault::UnknownFlag => ParseKind::UnknownFlag,
        FlagFault::FlagNotHere => ParseKind::FlagNotHere,
        FlagFault::TooLong => ParseKind::LineTooLong,
        FlagFault::Memory => return ReadEnd::Memory,
    };
    at.refuse(kind)
}

/// The same where it is one text.
pub(crate) fn flagged_text(
    alloc: Global,
    at: &Spot,
    parts: &FlagParts,
    text: &Text,
) -> Result<Text, ReadEnd>
    ensures { Gives (specs.flagged_text at.now parts.now text.now) result }
{
    let pieces = flagged(alloc, at, parts, text)?;
    Ok(text_of(alloc, pieces.as_slice())?)
}

/// The text of pieces without a group.
fn text_of(alloc: Global, pieces: &[Piece]) -> Result<Text, AllocError>
    ensures { IfOk result (λ text. text ≡ specs.text_of pieces.now) }
{
    let mut text = Text::from_str(alloc, "")?;
    for piece in pieces {
        add_piece(&mut text, piece)?;
    }
    Ok(text)
}

/// Adds the text of a piece; a group has none.
fn add_piece(text: &mut Text, piece: &Piece) -> Result<(), AllocError>
    ensures { OnOk result (text.new ≡ text.old ++ specs.text_of (piece.now ∷ [])) }
{
    match piece {
        Piece::Text(more) => text.push_str(more.as_str()),
        Piece::Group(_) => Ok(()),
    }
}

/// The flags of an input word have no meaning but that of a percent sign.
pub(crate) fn bare_parts(alloc: Global, dir: &Path) -> Result<FlagParts, AllocError>
    ensures { IfOk result (λ parts. parts ≡ specs.bare_parts dir.now) }
{
    Ok(FlagParts {
        dir: dir.clone()?,
        inputs: Items::new(alloc),
        order: Items::new(alloc),
        outputs: Items::new(alloc),
        foreach: false,
        glob: None,
        groups: Items::new(alloc),
        place: Place::Inputs,
    })
}
