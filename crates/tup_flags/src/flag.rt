//! What each flag is, and where it may stand.
ghost use Rattle.std.specs.Prelude.{◌≡◌, ◌<◌, OnOk, IfErr, IfSome};
ghost use Rattle.tup_flags.specs.Answer.{IsGrown, HasNoRoom};
ghost use Rattle.tup_flags.specs.Flag.{stands, meaning, glob_text};
ghost use Rattle.tup_flags.specs.Part.{flag_of};

use crate::answer::Answer;
use crate::fault::FlagFault;
use crate::parts::{FlagParts, Place};
use crate::shown::{Side, add_listed, last_name};
use std::alloc::Global;

/// A flag of one character.
#[derive(Clone, Copy)]
pub(crate) enum Flag {
    /// `%%`
    Percent,
    /// `%f`
    Inputs,
    /// `%b`
    Names,
    /// `%B`
    Stems,
    /// `%e`
    Extension,
    /// `%o`
    Outputs,
    /// `%O`
    Trunk,
    /// `%d`
    Folder,
    /// `%g`
    Glob,
    /// `%i`
    Order,
}

impl Flag {
    /// The flag with this character.
    pub(crate) fn of(character: u8) -> Option<Flag>
        ensures flag { result ≡ flag_of character }
        ensures ascii { IfSome result (λ _. character < 128) }
    {
        Some(match character {
            b'%' => Flag::Percent,
            b'f' => Flag::Inputs,
            b'b' => Flag::Names,
            b'B' => Flag::Stems,
            b'e' => Flag::Extension,
            b'o' => Flag::Outputs,
            b'O' => Flag::Trunk,
            b'd' => Flag::Folder,
            b'g' => Flag::Glob,
            b'i' => Flag::Order,
            _ => return None,
        })
    }

    /// Whether the flag may stand where the text does.
    pub(crate) fn stands(self, parts: &FlagParts) -> bool
        ensures { result ≡ stands parts.now self }
    {
        let behind_inputs = parts.place != Place::Inputs;
        match self {
            Flag::Percent => true,
            Flag::Inputs | Flag::Names | Flag::Stems => behind_inputs,
            Flag::Extension => behind_inputs && parts.foreach,
            Flag::Outputs | Flag::Order => parts.place == Place::Command,
            Flag::Trunk => parts.place == Place::Extra && parts.outputs.len() == 1,
            Flag::Folder => behind_inputs && parts.dir.depth() > 0,
            Flag::Glob => {
                behind_inputs && parts.glob.is_some() && (parts.foreach || parts.inputs.len() == 1)
            }
        }
    }

    /// Goes on with the text that the flag stands for, where it may stand.
    pub(crate) fn add(
        self,
        alloc: Global,
        answer: &mut Answer,
        parts: &FlagParts,
    ) -> Result<(), FlagFault>
        ensures grown { OnOk result (IsGrown answer.old answer.new (meaning parts.now self)) }
        ensures refused { IfErr result (HasNoRoom answer.old (meaning parts.now self)) }
    {
        let (dir, inputs, outputs) = (
            &parts.dir,
            parts.inputs.as_slice(),
            parts.outputs.as_slice(),
        );
        match self {
            Flag::Percent => answer.add_text("%"),
            Flag::Inputs => add_listed(alloc, answer, dir, Side::Way, inputs),
            Flag::Names => add_listed(alloc, answer, dir, Side::Name, inputs),
            Flag::Stems => add_listed(alloc, answer, dir, Side::Stem, inputs),
            Flag::Extension => add_listed(alloc, answer, dir, Side::Extension, inputs),
            Flag::Outputs => add_listed(alloc, answer, dir, Side::Way, outputs),
            Flag::Trunk => add_listed(alloc, answer, dir, Side::Trunk, outputs),
            Flag::Folder => answer.add_text(last_name(dir)),
            Flag::Glob => answer.add_text(glob_text(parts)),
            Flag::Order => add_listed(alloc, answer, dir, Side::Way, parts.order.as_slice()),
        }
    }
}

/// What the first operator of the glob matched.
fn glob_text(parts: &FlagParts) -> &str
    ensures { result.now ≡ glob_text parts.now }
{
    match &parts.glob {
        Some(matched) => matched.as_str(),
        None => "",
    }
}
