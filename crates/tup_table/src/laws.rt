//! What is written is read, and what changes leave.
ghost use Rattle.std.specs.Prelude.{◌≡◌, ◌≢◌, ◌∷◌, ◌++◌, [], ℕ, List, Result, length, Some, None};
ghost use Rattle.std.specs.List.{AllByRecursion};
ghost use Rattle.tup_table.specs.Appending.{appending};
ghost use Rattle.tup_table.specs.Compact.{HasSameValues, compacted, compact_area, live_size};
ghost use Rattle.tup_table.specs.Entries.{Standing, IsAscending, key_of, changed, committed, entry_at, entries_of};
ghost use Rattle.tup_table.specs.Reading.{ReadsAs};
ghost use Rattle.tup_table.specs.Store.{header, blocks, switch_of, CommitFits, IsHead, IsStore};
ghost use Rattle.tup_table.specs.declared.change.Change.{Change};
ghost use Rattle.tup_table.specs.declared.fault.TableFault.{TableFault};
ghost use Rattle.tup_table.specs.declared.opened.Opened.{Opened};

/// A commit that was put behind the last gate isn't in the store before that gate is opened, whatever stands at the gate
/// and behind it, and is in it from then on, whatever stands behind the commit. Its changes then come after those of the
/// commits before it, and have that gate as their origin.
pub fn written_is_read()
    ensures closed { (head : List ℕ) → IsHead head → switch_of head ≢ 1
        → (commits : List (List Change)) (gate : ℕ) (rest : List ℕ)
        → AllByRecursion CommitFits commits → gate ≢ 1
        → IsStore (head ++ blocks commits ++ gate ∷ rest) commits }
    ensures opened { (head : List ℕ) → IsHead head → switch_of head ≢ 1
        → (commits : List (List Change)) (changes : List Change) (rest : List ℕ)
        → AllByRecursion CommitFits commits → CommitFits changes
        → IsStore (head ++ blocks commits ++ 1 ∷ (appending changes ++ rest))
        (commits ++ changes ∷ []) }
    ensures entries { (commits : List (List Change)) (changes : List Change)
        → entries_of (commits ++ changes ∷ [])
        ≡ committed (length (header ++ blocks commits)) (entries_of commits) changes }
{}

/// What stands under a key is what was put there last, if it wasn't deleted since: a change tells what stands under its own
/// key, and leaves all other keys. The keys that commits leave ascend.
pub fn last_change_stands()
    ensures put { (entries : Standing) (origin : ℕ) (key value : List ℕ)
        → entry_at (changed origin entries (Change.Put key value)) key
        ≡ Some (record { value = value; origin = origin }) }
    ensures deleted { (entries : Standing) (origin : ℕ) (key : List ℕ) → IsAscending entries
        → entry_at (changed origin entries (Change.Delete key)) key ≡ None }
    ensures others { (entries : Standing) (origin : ℕ) (change : Change) (other : List ℕ)
        → other ≢ key_of change
        → entry_at (changed origin entries change) other ≡ entry_at entries other }
    ensures ascending { (commits : List (List Change)) → IsAscending (entries_of commits) }
{}

/// One commit of all entries leaves the same keys with the same values, and a store of it has as many bytes as are live.
pub fn compacting_keeps()
    ensures values { (entries : Standing) → IsAscending entries
        → HasSameValues (entries_of (compacted entries)) entries }
    ensures live { (entries : Standing) → length (header ++ compact_area entries) ≡ live_size entries }
{}

/// Bytes read as one thing alone: the entries of one list of commits, nothing, or damage at one offset.
pub fn bytes_read_in_one_way()
    ensures { (bytes : List ℕ) (one other : Result Opened TableFault)
        → ReadsAs bytes one → ReadsAs bytes other → one ≡ other }
{}
