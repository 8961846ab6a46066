//! Where a name begins in a text.
ghost use Rattle.std.specs.Prelude.{◌≡◌, ◌<◌, ◌+◌, ℕ, true, false, ◌&&◌, ◌==◌, length, slice_index, MatchOption, option_map};
ghost use Rattle.tup_vars.specs.Segments.{opened, is_mark, opens_at};

/// What stands before the first `$(` or `@(` of a text, its mark, and what stands behind it.
pub(crate) fn opened(text: &str) -> Option<(&str, u8, &str)>
    ensures { option_map (λ cut. (cut.0.now, cut.1, cut.2.now)) result ≡ opened text.now }
{
    let bytes = text.as_bytes();
    let at = opening(bytes)?;
    Some((&text[..at], bytes[at], &text[at + 2..]))
}

/// The place of the first `$(` or `@(`.
fn opening(text: &[u8]) -> Option<usize>
    ensures { MatchOption result
        ((k : ℕ) → k + 1 < length text.now → opens_at text.now k ≡ false)
        (λ at. (at + 1 < length text.now) × (opens_at text.now at ≡ true)
        × ((k : ℕ) → k < at → opens_at text.now k ≡ false)) }
{
    text.windows(2).position(|pair| opens(pair))
}

fn opens(pair: &[u8]) -> bool
    requires { length pair.now ≡ 2 }
    ensures { result ≡ (is_mark (slice_index pair.now 0) && slice_index pair.now 1 == 40) }
{
    (pair[0] == b'$' || pair[0] == b'@') && pair[1] == b'('
}
