//! Spaces and tabs, which part words and are dropped at both ends of a line.
ghost use Rattle.std.specs.Prelude.{◌≡◌, length, MatchOption};
ghost use Rattle.tup_lex.specs.Blank.{is_blank, trim, BlankFrom, Ends};

use bstr::ByteSlice;

pub(crate) fn is_blank(byte: u8) -> bool
    ensures { result ≡ is_blank byte }
{
    byte == b' ' || byte == b'\t'
}

/// The places of the first and of the last byte that isn't blank, if there is one.
pub(crate) fn ends(bytes: &[u8]) -> Option<(usize, usize)>
    ensures { MatchOption result
        (BlankFrom bytes.now 0 (length bytes.now)) (λ ends. Ends bytes.now ends.0 ends.1) }
{
    let first = bytes.find_not_byteset(b" \t")?;
    let last = bytes.rfind_not_byteset(b" \t")?;
    Some((first, last))
}

/// A text without the spaces and tabs at both of its ends.
pub fn trimmed(text: &str) -> &str
    ensures { result.now ≡ trim text.now }
{
    match ends(text.as_bytes()) {
        Some((first, last)) => &text[first..last + 1],
        None => "",
    }
}
