//! The steps of a small command.
ghost use Rattle.std.specs.Prelude.{◌≡◌, IfOk};
ghost use Rattle.tup_mini.specs.Steps as specs;

use crate::step::MiniStep;
use crate::word::words;
use std::alloc::{AllocError, Global};
use tup_path::Text;

/// The steps of a command, which the words `&&` part.
pub(crate) fn steps(alloc: Global, text: &Text) -> Result<Vec<MiniStep>, AllocError>
    ensures { IfOk result (λ steps. steps.items ≡ specs.steps_of text.now) }
{
    let words = words(alloc, text)?;
    let mut steps = Vec::new(alloc);
    for part in words.split(|word| is_and(word)) {
        steps.push(MiniStep::read(alloc, part)?)?;
    }
    Ok(steps)
}

/// Whether a word parts steps.
fn is_and(word: &Text) -> bool
    ensures { result ≡ specs.is_and word.now }
{
    word.as_str() == "&&"
}
