//! What an update does behind a listing.
ghost use Rattle.std.specs.Prelude.{◌≡◌, [], Bool, ℕ, List, Option};
ghost use Rattle.tup_path.specs.Name.{Names, Content};
ghost use Rattle.tup_site.specs.Known.{IsKnown, KnowsTree};
ghost use Rattle.tup_site.specs.World.{World};
ghost use Rattle.tup_runner.specs.Next.{Next};
ghost use Rattle.tup_graph.specs.Kept.{IsKeptWorld};
ghost use Rattle.tup_law_phases.specs.Language.{tupfiles};
ghost use Rattle.tup_promise.specs.Did.{ReadAndRemoved, ReadsWhatIsDue};
ghost use Rattle.tup_promise.specs.Needed.{RunsWhatIsNeeded};
ghost use Rattle.tup_promise.specs.declared.log.Log.{Log};
ghost use Rattle.tup_promise.specs.declared.stop.Stop.{Stop};
ghost use Rattle.tup_todo.specs.Behind.{DoesWhatWasListed};
ghost use Rattle.tup_todo.specs.Lists.{ListsWhatIsDue};
ghost use Rattle.tup_todo.specs.declared.todo.Todo.{Todo};

/// A law: an update that begins in what was left when it was found out what it would do, where nothing was edited since, does what was
/// listed.
pub fn what_is_listed_is_done()
    ensures { (old left : World) (todo : Todo) (next : Next) (keep_going : Bool) (jobs : ℕ) (log : Log)
        (stopped : Option Stop) → ListsWhatIsDue old left todo
        → RunsWhatIsNeeded next keep_going jobs left log.ran stopped
        → ReadAndRemoved left log stopped → DoesWhatWasListed todo log stopped }
{}

/// A law: and it reads no Tupfile, where what was left is kept, and no two of the contents that are known have one stamp.
pub fn what_is_listed_was_read()
    ensures { (next : Next) (known : List Content) (old left : World) (todo : Todo) (read : List Names)
        → ListsWhatIsDue old left todo → IsKeptWorld next tupfiles known left
        → IsKnown known → KnowsTree known left.tree → ReadsWhatIsDue left read → read ≡ [] }
{}
