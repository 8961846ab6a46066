//! A list as a value, so that contracts compare what it holds and not where it lies.
ghost use Rattle.std.specs.Prelude.{◌≡◌, ◌+◌, ◌++◌, [], ◌∷◌, length, IfOk, OnOk, OnErr};
ghost use Rattle.std.specs.List.{AllZip};
ghost use Rattle.std.specs.Cmp.Lexicographic.{pointwise, lists_per};
ghost use Rattle.std.specs.Cmp.Rules.{comparing};
ghost use Rattle.std.proofs.Common.{rules};

use crate::bytes::Bytes;
use crate::path::Path;
use crate::text::Text;
use std::alloc::{AllocError, AllocFailed, Global};
use std::marker::Model;

/// A list of values. Contracts see the list itself.
#[derive(Debug, Drop)]
pub struct Items<T> {
    items: Vec<T>,
}

/// A list of texts.
pub type Texts = Items<Text>;

/// A list of paths.
pub type Paths = Items<Path>;

/// Files with their contents.
pub type Files = Items<(Path, Bytes)>;

impl<T> Model for Items<T> {
    ghost use Rattle.std.specs.Prelude.{List};
    ghost use Rattle.std.specs.Coded.{coded_list};

    ghost Value = { List T };

    ghost coded = { coded_list T.code };

    ghost view = { λ v. v.items.items };
}

impl<T> Items<T> {
    /// The empty list; it takes no memory.
    pub fn new(alloc: Global) -> Items<T>
        ensures { result ≡ [] }
    {
        Items {
            items: Vec::new(alloc),
        }
    }

    /// The empty list, with room for so many values.
    pub fn with_room(alloc: Global, count: usize) -> Result<Items<T>, AllocError>
        ensures { IfOk result (λ items. items ≡ []) }
    {
        Ok(Items {
            items: Vec::with_capacity(alloc, count)?,
        })
    }

    /// Takes the values over; nothing is copied.
    pub fn from_vec(items: Vec<T>) -> Items<T>
        ensures { result ≡ items.items }
    {
        Items { items }
    }

    pub fn as_slice(&self) -> &[T]
        ensures { result.now ≡ self.now }
    {
        &self.items
    }

    pub fn len(&self) -> usize
        ensures { result ≡ length self.now }
    {
        self.items.len()
    }

    /// Gives the values back; nothing is copied.
    pub fn into_vec(self) -> Vec<T>
        ensures { result.items ≡ self }
    {
        self.items
    }

    /// Adds a value at the end.
    pub fn push(&mut self, item: T) -> Result<(), AllocFailed<T>>
        ensures ok { OnOk result (self.new ≡ self.old ++ item ∷ []) }
        ensures err { OnErr result (self.new ≡ self.old) }
    {
        self.items.push(item)
    }
}

impl<T: PartialEq> PartialEq for Items<T> {
    ghost eq = { pointwise T.eq };

    ghost laws = { lists_per T.laws };

    fn eq(&self, other: &Items<T>) -> bool {
        self.items == other.items
    }
}

impl<T: Eq> Eq for Items<T> {
    ghost laws = { Prim.search (comparing, rules) };
}

impl<T: Clone> Clone for Items<T> {
    ghost is_clone = { λ list copy. AllZip T.is_clone list copy × (length copy ≡ length list) };

    fn clone(&self) -> Result<Items<T>, AllocError> {
        Ok(Items {
            items: self.items.clone()?,
        })
    }
}
