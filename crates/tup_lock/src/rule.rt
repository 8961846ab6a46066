//! The rule of the table, and the names of its steps.
ghost use Rattle.tup_lock.specs.Held.{Held, log_of, first_view, nobody, left_with, right_of, both_of, taken, gave};

use crate::logged::Logged;
use crate::view::View;
use atomic_table::{Join, Play, Split, TableRule};
use std::snapshot::Snapshot;

/// The rule.
pub(crate) struct Order;

impl<T: Logged> TableRule<Option<T>, View<T>, Snapshot<T>> for Order {
    ghost holds = { λ key. Held (log_of T.seat_of T.history T.origin T.knows T.stood) key.value };

    ghost first = { λ key. first_view key.value };
}

/// The word goes from 0 to 1, or stays.
pub(crate) struct Take;

impl<T: Logged> Play<Option<T>, View<T>> for Take {
    ghost then = { taken (log_of T.seat_of T.history T.origin T.knows T.stood) };
}

/// The word goes from 1 to 0.
pub(crate) struct Give;

impl<T: Logged> Play<Option<T>, View<T>> for Give {
    ghost then = { gave };
}

/// A new seat gets the next number.
pub(crate) struct Draw;

impl<T> Split<View<T>> for Draw {
    ghost left = { left_with };

    ghost right = { right_of };
}

/// A seat gets what another knows.
pub(crate) struct Unite;

impl<T> Join<View<T>> for Unite {
    ghost both = { both_of };

    ghost spent = { nobody };
}
