//! The call that reads a folder's Tupfile.
ghost use Rattle.std.specs.Prelude.{◌≡◌, false, IfOk, IsTrue, List, is_some};
ghost use Rattle.tup_rule.specs.declared.question.Question.{Question};
ghost use Rattle.tup_tupfile.specs.Read.{IsReading, IsToldBy, Agrees, AsksOnce};
ghost use Rattle.tup_tupfile.specs.Reading.{reading};
ghost use Rattle.tup_query.specs.Log.{noted_log};
ghost use Rattle.tup_query.specs.Went.{AskedAre, is_stopped};

use crate::reading::drafts_of;
use std::alloc::{AllocError, Global};
use tup_path::Path;
use tup_query::{Env, Log, ReadEnd};
use tup_rule::{Drafts, Reading};

/// The reading of a folder's Tupfile: its rules, and what it asked, each question once in the order
/// of first asking.
///
/// `Fault` names the first fault, just where the reading has it over the same answers. `Stopped`
/// comes just where the environment has stopped in this call, at a question that was not asked
/// before. An environment that lists what it is asked is asked each question once, and none but
/// those of the reading up to its end.
/// Where memory was wanting nothing is known of the rules.
pub fn read_tupfile<E: Env>(alloc: Global, dir: &Path, env: &mut E) -> Result<Reading, ReadEnd>
    requires { is_some (E.stopped env.old) ≡ false }
    ensures reading { IsReading (IsToldBy E.tells (E.answers env.old)) dir.now
        (E.stopped env.new) result }
    ensures answers { IsTrue E.tells → Agrees (E.answers env.old) (reading dir.now) result }
    ensures stopped { is_some (E.stopped env.new) ≡ is_stopped result }
    ensures asks { (earlier : List Question) → AskedAre (E.asked env.old) earlier
        → AsksOnce (IsToldBy E.tells (E.answers env.old)) dir.now (E.stopped env.new) earlier
        (E.asked env.new) result }
    ensures same { IsTrue E.tells → E.answers env.new ≡ E.answers env.old }
{
    let mut log = Log::new(alloc);
    let drafts = drafts_of(alloc, env, &mut log, dir)?;
    let reading = kept(alloc, drafts, log)?;
    Ok(reading)
}

/// The reading that left these rules, with what it asked.
fn kept(alloc: Global, drafts: Drafts, log: Log) -> Result<Reading, AllocError>
    ensures drafts { IfOk result (λ reading. reading.drafts ≡ drafts) }
    ensures asked { IfOk result (λ reading. reading.asked ≡ noted_log log) }
{
    let asked = log.noted(alloc)?;
    Reading::new(drafts, asked)
}
