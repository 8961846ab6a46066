//! Marks at places, of which the first is found at once.
ghost use Rattle.std.specs.Prelude.{◌≡◌, ℕ, ◌^◌, ◌*◌, ◌<◌, ◌≤◌, ◌==◌, false, if◌then◌else◌, IfOk, MatchOption};
ghost use Rattle.tup_schedule.specs.Marks.{IsMarks, is_marked, IsFirstMark, IsPower};

use std::alloc::{AllocError, Global};

/// The most places that there may be.
const MOST: usize = 4_294_967_296;

/// Marks at places. To set one, and to find the first, takes as many steps as the number of places has binary digits,
/// and no memory.
#[derive(Drop)]
pub(crate) struct Marks {
    /// How many places there are: a power of two.
    places: usize,
    /// A tree of truths over the places: node 1 is its root, the nodes `2 * n` and `2 * n + 1` hang below node n, and
    /// place p is node `places + p`. A node above the places is up where one below it is.
    nodes: Vec<bool>,
}

impl Marks {
    /// No marks, at so many places or more; it is refused too where there would be more than 2 ^ 32.
    pub(crate) fn new(alloc: Global, count: usize) -> Result<Marks, AllocError>
        ensures marks { IfOk result IsMarks }
        ensures none { IfOk result (λ marks. (at : ℕ) → is_marked marks at ≡ false) }
        ensures places { IfOk result (λ marks. count ≤ marks.places) }
        ensures few { IfOk result (λ marks. count ≤ 2 ^ 32) }
    {
        if count > MOST {
            return Err(AllocError);
        }
        let places = places_for(count);
        Ok(Marks {
            places,
            nodes: vec![in alloc; false; 2 * places]?,
        })
    }

    /// Sets the mark at a place, or takes it away.
    pub(crate) fn set(&mut self, place: usize, up: bool)
        requires marks { IsMarks self.old }
        requires place { place < self.old.places }
        ensures marks { IsMarks self.new }
        ensures places { self.new.places ≡ self.old.places }
        ensures set { (at : ℕ) → is_marked self.new at
            ≡ (if at == place then up else is_marked self.old at) }
    {
        let mut node = self.places + place;
        self.nodes[node] = up;
        'up: while node > 1 {
            node /= 2;
            self.nodes[node] = self.nodes[2 * node] || self.nodes[2 * node + 1];
        }
    }

    /// The first place with a mark.
    pub(crate) fn first(&self) -> Option<usize>
        requires { IsMarks self.now }
        ensures { MatchOption result ((at : ℕ) → is_marked self.now at ≡ false)
            (IsFirstMark self.now) }
    {
        if !self.nodes[1] {
            return None;
        }
        let mut node = 1;
        'down: while node < self.places {
            node *= 2;
            if !self.nodes[node] {
                node += 1;
            }
        }
        Some(node - self.places)
    }
}

/// A power of two that is no less than a number.
fn places_for(count: usize) -> usize
    requires { count ≤ 2 ^ 32 }
    ensures power { IsPower result }
    ensures enough { count ≤ result }
    ensures few { result ≤ 2 ^ 33 }
{
    let mut places = 1;
    'double: while places < count {
        places *= 2;
    }
    places
}
