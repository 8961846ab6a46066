//! What lies under a lock.
ghost use Rattle.std.specs.Prelude.{ℕ, List};

/// A value with all that happened on it, event by event, each at the seat of a number.
pub trait Logged {
    type Event;

    /// The number of the seat of an event.
    ghost seat_of: { Self.Event → ℕ };

    /// All that happened, in its order.
    ghost history: { Self → List Self.Event };

    /// What the value was when nothing had happened.
    ghost origin: { Self → Self };

    /// Whether a text is known to it. What is known stays known.
    ghost knows: { Self → List ℕ → Type 0 };

    /// What is so of it with a number. Where it is so, it was so at each earlier moment, with the same number.
    ghost stood: { Self → ℕ → Type 0 };
}
