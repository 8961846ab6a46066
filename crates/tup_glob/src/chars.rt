//! Texts cut behind their first character, or before their last one.
ghost use Rattle.std.specs.Prelude.{◌≡◌, [], ◌∷◌, ◌++◌, false, MatchOption};
ghost use Rattle.std.specs.Str.{chars};
ghost use Rattle.tup_lex.specs.Word.{begins_with};

/// The first character of a text, and what follows it.
pub(crate) fn first_char(text: &str) -> Option<(char, &str)>
    ensures { MatchOption result (chars text.now ≡ [])
        (λ first. chars text.now ≡ first.0 ∷ chars first.1.now) }
{
    let mut rest = text.chars();
    let first = rest.next()?;
    Some((first, rest.as_str()))
}

/// The last character of a text, and what stands before it.
pub(crate) fn last_char(text: &str) -> Option<(&str, char)>
    ensures { MatchOption result (chars text.now ≡ [])
        (λ last. chars text.now ≡ chars last.0.now ++ last.1 ∷ []) }
{
    let mut front = text.chars();
    let last = front.next_back()?;
    Some((front.as_str(), last))
}

/// What follows a character in a text that begins with it.
pub(crate) fn behind_char(char: char, text: &str) -> Option<&str>
    ensures { MatchOption result (begins_with char (chars text.now) ≡ false)
        (λ behind. chars text.now ≡ char ∷ chars behind.now) }
{
    match first_char(text) {
        Some((first, behind)) if first == char => Some(behind),
        _ => None,
    }
}
