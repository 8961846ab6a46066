//! The settings that a text names.
ghost use Rattle.std.specs.Prelude.{◌≡◌, ◌++◌, [], IfOk, OnOk, option_map};
ghost use Rattle.std.specs.List.{cons_option};
ghost use Rattle.tup_vars.specs.Asked as specs;

use crate::name::is_name;
use crate::opening::opened;
use std::alloc::{AllocError, Global};
use tup_path::{Text, Texts};

/// The names of the settings for which `Vars::expand` asks a lookup if it comes to the end of the text, in
/// order, each as often as it stands there.
pub fn setting_names(alloc: Global, text: &Text) -> Result<Texts, AllocError>
    ensures { IfOk result (λ names. names ≡ specs.setting_names text.now) }
{
    let mut names = Texts::new(alloc);
    let mut rest = text.as_str();
    'parts: while let Some((part, more)) = rest.split_once(')') {
        add_closed(alloc, &mut names, part)?;
        rest = more;
    }
    Ok(names)
}

// Adds the name of the bracket that is closed behind a part of a text.
fn add_closed(alloc: Global, names: &mut Texts, part: &str) -> Result<(), AllocError>
    ensures { OnOk result (names.new
        ≡ names.old ++ cons_option (specs.closed_name part.now) []) }
{
    if let Some(name) = closed_name(part) {
        names.push(Text::from_str(alloc, name)?)?;
    }
    Ok(())
}

fn closed_name(part: &str) -> Option<&str>
    ensures { option_map (λ name. name.now) result ≡ specs.closed_name part.now }
{
    match opened(part) {
        Some((_, mark, name)) if mark != b'$' && is_name(name) => Some(name),
        _ => None,
    }
}
