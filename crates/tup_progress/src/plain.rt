//! Texts without control characters.
ghost use Rattle.std.specs.Prelude.{◌≡◌, IfOk, string_bytes};
ghost use Rattle.tup_progress.specs.Plain as specs;

use std::alloc::{AllocError, Global};

/// A text in which each control character is a question mark, so that a terminal prints it and does nothing else.
pub(crate) fn plain(alloc: Global, text: &str) -> Result<String, AllocError>
    ensures { IfOk result (λ plain. string_bytes plain ≡ specs.plain text.now) }
{
    let mut plain = String::new(alloc);
    for c in text.chars() {
        plain.push(plain_char(c))?;
    }
    Ok(plain)
}

/// A character as it is shown.
fn plain_char(c: char) -> char
    ensures { result ≡ specs.plain_char c }
{
    if c.is_control() { '?' } else { c }
}
