//! Texts at places in texts.
ghost use Rattle.std.specs.Prelude.{◌≡◌, IfOk};
ghost use Rattle.tup_rule_line.specs.Glob.{bytes_at};
ghost use Rattle.tup_rule_line.specs.Cut.{IsCut};

use std::alloc::{AllocError, Global};
use tup_lex::Span;
use tup_path::Text;

/// The text at a place in a text, which has to begin and end between characters.
pub(crate) fn text_at(alloc: Global, text: &str, span: &Span) -> Result<Text, AllocError>
    requires { IsCut text.now span.now }
    ensures { IfOk result (λ part. part ≡ bytes_at text.now span.now) }
{
    Text::from_str(alloc, &text[span.from as usize..span.to as usize])
}
