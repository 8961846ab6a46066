//! A byte at the end of a text.
ghost use Rattle.std.specs.Prelude.{◌≡◌, ◌<◌, option_map};
ghost use Rattle.tup_rule_line.specs.Last.{before_last};

/// A text without its last character, if that is this one.
pub fn before_last(text: &str, last: char) -> Option<&str>
    requires some { 0 < last }
    requires ascii { last < 128 }
    ensures { option_map (λ front. front.now) result ≡ before_last last text.now }
{
    text.strip_suffix(last)
}
