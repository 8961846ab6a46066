//! What a text stands for where it stands.
ghost use Rattle.std.specs.Prelude.{◌≡◌, ◌≤◌, false, length, IfOk, is_some};
ghost use Rattle.tup_query.specs.Text as specs;
ghost use Rattle.tup_query.specs.Went.{Went, asker, IsRefusal};
ghost use Rattle.tup_query.specs.declared.fault.ReadEnd.TheVariants.{Memory};

use crate::env::Env;
use crate::fault::ReadEnd;
use crate::log::Log;
use crate::settings::{Settings, settings_of};
use crate::spot::Spot;
use std::alloc::Global;
use tup_lex::ParseKind;
use tup_path::Text;
use tup_vars::{VarFault, Vars, setting_names};

/// A text with what its names stand for, given the variables; at most 1,048,576 bytes. All settings
/// that it names are asked in order first.
///
/// `Fault` names a name that isn't closed or isn't one, or a text that grows too long, at the line;
/// `Stopped` comes just where who answers has stopped in this call.
pub fn expanded<E: Env>(
    alloc: Global,
    env: &mut E,
    log: &mut Log,
    at: &Spot,
    variables: &Vars,
    text: &str,
) -> Result<Text, ReadEnd>
    requires { is_some (E.stopped env.old) ≡ false }
    ensures went { Went E.tells
        (asker (E.answers env.old) (E.stopped env.old) (E.asked env.old) log.old)
        (specs.expanded at.now variables.now text.now)
        (asker (E.answers env.new) (E.stopped env.new) (E.asked env.new) log.new) result }
    ensures short { IfOk result (λ text. length text ≤ 1048576) }
{
    let text = Text::from_str(alloc, text)?;
    let cwd = at.cwd(alloc)?;
    let names = setting_names(alloc, &text)?;
    let values = settings_of(alloc, env, log, names.as_slice())?;
    let mut settings = Settings {
        values,
        stopped: false,
    };
    match variables.expand(alloc, &text, &cwd, &mut settings) {
        Ok(text) => Ok(text),
        Err(fault) => Err(var_end(at, fault)),
    }
}

/// The end with a refusal of variables or conditionals, as a fault at a line.
pub fn var_end(at: &Spot, fault: VarFault) -> ReadEnd
    ensures refusal { IsRefusal at.now (specs.var_kind fault) result }
    ensures memory { fault ≡ VarFault.Memory → result ≡ Memory }
    ensures stopped { fault ≡ VarFault.Stopped → result ≡ Memory }
{
    let kind = match fault {
        VarFault::Unclosed => ParseKind::Unclosed,
        VarFault::StrayElse => ParseKind::StrayElse,
        VarFault::StrayEndif => ParseKind::StrayEndif,
        VarFault::MissingEndif { .. } => ParseKind::MissingEndif,
        VarFault::BadName => ParseKind::BadName,
        VarFault::TooLong => ParseKind::LineTooLong,
        VarFault::TooDeep => ParseKind::TooDeep,
        VarFault::Stopped | VarFault::Memory => return ReadEnd::Memory,
    };
    at.refuse(kind)
}
