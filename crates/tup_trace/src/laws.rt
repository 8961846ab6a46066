//! What holds of texts in quotes.
ghost use Rattle.std.specs.Prelude.{◌≡◌, ◌<◌, List, ℕ, All, Some};
ghost use Rattle.tup_trace.specs.Quoting.{quoted, unquoted};

/// What was written in quotes reads back.
pub fn quoting_reads_back()
    ensures { (bytes : List ℕ) → All (λ byte. byte < 256) bytes
        → unquoted (quoted bytes) ≡ Some bytes }
{}
