//! The pieces of an expanded text as they come.
ghost use Rattle.std.specs.Prelude.{◌≡◌, ◌++◌, [], ◌∷◌, string_bytes, OnOk, IfErr, IfOk};
ghost use Rattle.tup_flags.specs.Answer.{IsGrown, HasNoRoom};
ghost use Rattle.tup_flags.specs.Pieces.{onto, text_limit};
ghost use Rattle.tup_flags.specs.declared.fault.FlagFault.TheVariants.{Memory};
ghost use Rattle.tup_rule.specs.declared.draft.Piece.{Piece};

use crate::fault::FlagFault;
use std::alloc::Global;
use std::mem;
use tup_path::{MAX_EXPANDED, Text};
use tup_rule::{Piece, Pieces};

/// Pieces, the text that goes on behind them, and how many bytes there is room for behind that.
#[derive(Drop)]
pub(crate) struct Answer {
    pieces: Pieces,
    text: String,
    room: usize,
}

impl Answer {
    /// The answer to which nothing came yet; it takes no memory.
    pub(crate) fn new(alloc: Global) -> Answer
        ensures pieces { result.pieces ≡ [] }
        ensures text { string_bytes result.text ≡ [] }
        ensures room { result.room ≡ text_limit }
    {
        Answer {
            pieces: Pieces::new(alloc),
            text: String::new(alloc),
            room: MAX_EXPANDED,
        }
    }

    /// Goes on with a text, if there is room for it.
    pub(crate) fn add_text(&mut self, text: &str) -> Result<(), FlagFault>
        ensures grown { OnOk result (IsGrown self.old self.new text.now) }
        ensures refused { IfErr result (HasNoRoom self.old text.now) }
    {
        if text.len() > self.room {
            return Err(FlagFault::TooLong);
        }
        self.text.push_str(text)?;
        self.room -= text.len();
        Ok(())
    }

    /// Goes on with a group.
    pub(crate) fn add_group(&mut self, alloc: Global, place: u32) -> Result<(), FlagFault>
        ensures pieces { OnOk result (self.new.pieces
            ≡ self.old.pieces ++ onto (string_bytes self.old.text) (Piece.Group place ∷ [])) }
        ensures text { OnOk result (string_bytes self.new.text ≡ []) }
        ensures room { OnOk result (self.new.room ≡ self.old.room) }
        ensures refused { IfErr result (λ fault. fault ≡ Memory) }
    {
        self.close(alloc)?;
        self.pieces.push(Piece::Group(place))?;
        Ok(())
    }

    /// Nothing comes behind.
    pub(crate) fn finish(mut self, alloc: Global) -> Result<Pieces, FlagFault>
        ensures pieces { IfOk result (λ pieces.
            pieces ≡ self.pieces ++ onto (string_bytes self.text) []) }
        ensures refused { IfErr result (λ fault. fault ≡ Memory) }
    {
        self.close(alloc)?;
        Ok(self.pieces)
    }

    /// Makes a piece of the text, if there is one.
    fn close(&mut self, alloc: Global) -> Result<(), FlagFault>
        ensures pieces { OnOk result (self.new.pieces
            ≡ self.old.pieces ++ onto (string_bytes self.old.text) []) }
        ensures text { OnOk result (string_bytes self.new.text ≡ []) }
        ensures room { OnOk result (self.new.room ≡ self.old.room) }
        ensures refused { IfErr result (λ fault. fault ≡ Memory) }
    {
        if !self.text.is_empty() {
            let text = mem::replace(&mut self.text, String::new(alloc));
            self.pieces.push(Piece::Text(Text::from_string(text)))?;
        }
        Ok(())
    }
}
