//! A text with its flags put in.
ghost use Rattle.std.specs.Prelude.{◌≡◌, ◌≢◌, ◌⊎◌, ◌≤◌, ◌<◌, ◌+◌, ◌++◌, ◌∷◌, [], Ok, Err, All, length, IfOk, IfErr};
ghost use Rattle.std.specs.List.{flat_map};
ghost use Rattle.tup_path.specs.Gives.{GivesUnless};
ghost use Rattle.tup_flags.specs.Part.{parts as cut, spelled};
ghost use Rattle.tup_flags.specs.Pieces.{text_limit, total, onto};
ghost use Rattle.tup_flags.specs.Laws.{IsLeast, IsTextAlone, StandIn, InTurn};
ghost use Rattle.tup_flags.specs.Expansion as specs;
ghost use Rattle.tup_flags.specs.declared.fault.FlagFault.TheVariants.{Memory};

use crate::answer::Answer;
use crate::fault::FlagFault;
use crate::mark::Mark;
use crate::parts::{FlagParts, Place};
use std::alloc::Global;
use tup_path::Text;
use tup_rule::Pieces;

/// A text with what its flags stand for in their place. Texts that come side by side are one piece,
/// and an empty text is none; so outside of the command the answer is one text, or nothing.
///
/// Refused is what comes first from left to right. `UnknownFlag`: a percent sign is followed by the
/// end, by a character that is no flag's, or by `<` without a `>` behind it. `FlagNotHere`: the flag
/// has nothing to stand for at this place of the rule line, or no group has the name. `TooLong`: the
/// texts up to here have more than 1,048,576 bytes; a group counts nothing.
pub fn expand(alloc: Global, text: &Text, parts: &FlagParts) -> Result<Pieces, FlagFault>
    ensures expansion { GivesUnless result Memory (specs.expand parts.now text.now) }
    ensures cut { flat_map spelled (cut text.now) ≡ text.now }
    ensures plain { All (λ byte. byte ≢ 37) text.now → length text.now ≤ text_limit
        → GivesUnless result Memory (Ok (onto text.now [])) }
    ensures alone { parts.now.place ≢ Place.Command → IfOk result IsTextAlone }
    ensures least { IfOk result IsLeast }
    ensures groups { IfOk result (StandIn (length parts.now.groups)) }
    ensures short { IfOk result (λ pieces. total pieces ≤ text_limit) }
{
    expanded(alloc, text.as_str(), parts)
}

/// A law: texts expand one behind the other as they do together, if the first isn't cut off within a
/// flag.
pub fn expand_in_turn(front: &Text, back: &Text, parts: &FlagParts)
    ensures { InTurn parts.now front.now back.now }
{
    let _lengths = (
        front.as_str().len(),
        back.as_str().len(),
        parts.inputs.len(),
    );
}

/// The same as `expand`, by a loop over the percent signs.
fn expanded(alloc: Global, text: &str, parts: &FlagParts) -> Result<Pieces, FlagFault>
    ensures { GivesUnless result Memory (specs.expand parts.now text.now) }
{
    let mut answer = Answer::new(alloc);
    let mut rest = text;
    'marks: while let Some((front, behind)) = rest.split_once('%') {
        answer.add_text(front)?;
        rest = add_mark(alloc, &mut answer, behind, parts)?;
    }
    answer.add_text(rest)?;
    answer.finish(alloc)
}

/// Goes on with what the mark behind a percent sign stands for, and gives the text behind it.
fn add_mark<'t>(
    alloc: Global,
    answer: &mut Answer,
    behind: &'t str,
    parts: &FlagParts,
) -> Result<&'t str, FlagFault>
    ensures ok { IfOk result (λ rest. specs.with_rest parts.now answer.old (37 ∷ behind.now)
        ≡ specs.with_rest parts.now answer.new rest.now) }
    ensures err { IfErr result (λ fault. (fault ≡ Memory)
        ⊎ (specs.with_rest parts.now answer.old (37 ∷ behind.now) ≡ Err fault)) }
    ensures shorter { IfOk result (λ rest. length rest.now < length behind.now) }
{
    let Some((mark, rest)) = Mark::read(behind) else {
        return Err(FlagFault::UnknownFlag);
    };
    mark.add(alloc, answer, parts)?;
    Ok(rest)
}
