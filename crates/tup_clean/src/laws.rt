//! Laws of the clean build, whichever ready rule is taken first. Each is a function that does nothing, and whose
//! contract is the law.
ghost use Rattle.tup_clean.specs.AnyOrder as law;
ghost use Rattle.tup_clean.specs.Taken as turns;

/// A law: in whatever order the ready rules are taken, until none is ready, the clean build is left. It holds where
/// no path is an output of two rules.
pub fn any_order()
    ensures same { law.AnyOrder }
    ensures one_of_them { law.SomeOrder }
{}

/// A law: in the clean build just the rules whose declared producers are all Good have a verdict, each the one over
/// the tree that is left, and that tree has what the Good rules leave, and elsewhere the sources. It holds where no
/// path is an output of two rules.
pub fn no_order()
    ensures { law.NoOrder }
{}

/// A law: the test of the definition, which follows as many steps as there are rules, decides whether all declared
/// producers of a rule are Good, over however many steps.
pub fn counted_test()
    ensures { law.CountedTest }
{}

/// A law: the clean build takes rules in turn, each as the first that is ready by the verdicts before it, and has just
/// their verdicts.
pub fn in_turn()
    ensures { turns.TakesInTurn }
{}

/// A law: where no rule waits for itself, and all rules that were taken in turn are Good, one is ready as long as one is
/// left. So once none is ready all were taken.
pub fn never_stuck()
    ensures ready { turns.SomeIsReady }
    ensures all { turns.AllAreTaken }
{}
