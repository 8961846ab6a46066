//! A list that its copies share.
ghost use Rattle.std.specs.Prelude.{◌≡◌, length, IfOk};
ghost use Rattle.std.specs.Cmp.Lexicographic.{pointwise, lists_per};
ghost use Rattle.std.specs.Cmp.Rules.{comparing};
ghost use Rattle.std.proofs.Common.{rules};

use crate::items::Items;
use std::alloc::AllocError;
use std::marker::Model;
use std::sync::ArcSlice;

/// A list of values that stays as it is. A copy shares the values, and takes no memory. Contracts see the list itself.
#[derive(Debug, Drop)]
pub struct Shared<T> {
    items: ArcSlice<T>,
}

impl<T> Model for Shared<T> {
    ghost use Rattle.std.specs.Prelude.{List};
    ghost use Rattle.std.specs.Arc.{arc_slice_items};
    ghost use Rattle.std.specs.Coded.{coded_list};

    ghost Value = { List T };

    ghost coded = { coded_list T.code };

    ghost view = { λ s. arc_slice_items s.items };
}

impl<T> Shared<T> {
    pub fn as_slice(&self) -> &[T]
        ensures { result.now ≡ self.now }
    {
        self.items.as_slice()
    }

    pub fn len(&self) -> usize
        ensures { result ≡ length self.now }
    {
        self.items.len()
    }
}

impl<T: Drop> Shared<T> {
    /// Takes the values over; none is copied.
    pub fn new(items: Items<T>) -> Result<Shared<T>, AllocError>
        ensures { IfOk result (λ shared. shared ≡ items) }
    {
        Ok(Shared {
            items: ArcSlice::from_vec(items.into_vec())?,
        })
    }
}

impl<T: Drop> Clone for Shared<T> {
    ghost is_clone = { λ list copy. copy ≡ list };

    fn clone(&self) -> Result<Shared<T>, AllocError> {
        Ok(Shared {
            items: self.items.clone()?,
        })
    }
}

impl<T: PartialEq> PartialEq for Shared<T> {
    ghost eq = { pointwise T.eq };

    ghost laws = { lists_per T.laws };

    fn eq(&self, other: &Shared<T>) -> bool {
        self.items == other.items
    }
}

impl<T: Eq> Eq for Shared<T> {
    ghost laws = { Prim.search (comparing, rules) };
}
