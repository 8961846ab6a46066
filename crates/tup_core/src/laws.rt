//! Laws of the core: what every run of it keeps, from every opening, and how honest runs from planned ones end. Each is a function that does nothing, and
//! whose contract is the law.
ghost use Rattle.tup_core.specs.Laws as law;

/// A law: in every run each rule is claimed at most once, and only rules of the reach are.
pub fn claimed_once()
    ensures once { law.ClaimsOnce }
    ensures reached { law.ClaimsReached }
{}

/// A law: in every run, each declared producer of a claimed rule that is to be run is claimed before it.
pub fn claims_in_order()
    ensures order { law.ClaimsInOrder }
    ensures claimed { law.ProducersClaimed }
{}

/// A law: in every run in which one seat makes all claims, and whose plan doesn't keep going, a rule that is bad is the
/// last one that was claimed.
pub fn bad_is_last()
    ensures { law.BadIsLast }
{}

/// A law: in every run, what a seat's command was answered for a file stands until the command ends or is
/// stopped, its own outputs aside. It holds where no output of a rule of the reach is an output of another rule.
pub fn asks_stand()
    ensures { law.AsksStand }
{}

/// A law: no run comes to a state that isn't stopped, in which a rule is pending while none is ready, none runs
/// and none is bad. It holds where no rule is its own declared producer.
pub fn never_stuck()
    ensures { law.NeverStuck }
{}

/// A law: in every run, a command that does what its runner means, over contents of which no two have one stamp,
/// ends with the verdict, and leaves the stamps, that it has over a tree with the files of that moment: however the
/// files changed since it began. It holds where no output of a rule of the reach is an output of another rule.
pub fn ends_are_verdicts()
    ensures { law.EndsAreVerdicts }
{}

/// A law: at an opening that was planned, a rule that isn't to be run is Good in the clean build of the sources as soon
/// as all its declared producers are, and the files at its outputs are those that it leaves there.
pub fn unreached_stand()
    ensures { law.UnreachedStand }
{}

/// A law: in each honest run from an opening that was planned, each command ends with the verdict that its rule has in
/// the clean build of the sources, and so do those that are noted as bad.
pub fn ends_are_clean()
    ensures ends { law.EndsAreClean }
    ensures bads { law.BadsAreClean }
{}

/// A law: in each honest run from an opening that was planned, a rule that was to be run and isn't pending any more is
/// Good in the clean build of the sources, and the files have the stamps of what it leaves there, whose contents are
/// known. So it is of each rule where neither it nor a declared producer of it is pending.
pub fn settled_are_clean()
    ensures done { law.SettledAreClean }
    ensures clear { law.ClearAreClean }
{}

/// A law: at the end of each honest run from an opening that was planned, if no rule is pending, the clean build of the
/// sources succeeds, the files are those of its tree, and their contents are known. There are such runs.
pub fn ends_in_clean()
    ensures end { law.EndsInClean }
    ensures contents { law.CleanIsKnown }
    ensures some { law.SomeHonestRun }
{}

/// A law: where an honest run from an opening that was planned has come to a state in which nothing is stopped, no rule
/// is ready and none runs, each rule to be run was claimed whose declared producers are all Good in the clean build. So
/// an update that keeps going runs all that it can.
pub fn all_are_claimed()
    ensures { law.AllAreClaimed }
{}
