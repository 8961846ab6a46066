//! Bytes cut at a mark.
ghost use Rattle.std.specs.Prelude.{◌≡◌, ◌==◌, MatchOption, position};
ghost use Rattle.tup_proc.specs.Reading.{IsCut, IsUncut};

/// What stands before the first such byte, and what stands behind it.
pub(crate) fn cut(bytes: &[u8], mark: u8) -> Option<(&[u8], &[u8])>
    ensures { MatchOption result (IsUncut mark bytes.now)
        (λ parts. IsCut mark bytes.now parts.0.now parts.1.now) }
{
    let Some(end) = find(bytes, mark) else {
        return None;
    };
    Some((&bytes[..end], &bytes[end + 1..]))
}

/// Where the first such byte stands.
fn find(bytes: &[u8], mark: u8) -> Option<usize>
    ensures { result ≡ position (λ b. b == mark) bytes.now }
{
    bytes.iter().position(|b| *b == mark)
}
