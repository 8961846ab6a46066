//! Whether two values are the same.
ghost use Rattle.std.specs.Prelude.{◌≡◌, ◌↔◌, IsTrue};

use crate::event::Cause;
use tup_access::Verdict;
use tup_stamp::Stamp;

pub(crate) fn same_verdict(one: &Verdict, other: &Verdict) -> bool
    ensures { IsTrue result ↔ (one.now ≡ other.now) }
{
    one == other
}

pub(crate) fn same_answer(one: &Option<Stamp>, other: &Option<Stamp>) -> bool
    ensures { IsTrue result ↔ (one.now ≡ other.now) }
{
    one == other
}

pub(crate) fn is_bad(cause: Cause) -> bool
    ensures { IsTrue result ↔ (cause ≡ Cause.Bad) }
{
    matches!(cause, Cause::Bad)
}
