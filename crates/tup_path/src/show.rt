//! How a path is written.
ghost use Rattle.std.specs.Prelude.{◌≡◌, ◌⊎◌, ◌≤◌, ◌++◌, ◌∷◌, [], Ok, Err, Some, List, ℕ, All, length, drop, replicate, string_bytes, IfOk, OnOk};
ghost use Rattle.std.specs.List.{join_with_byte};
ghost use Rattle.tup_path.specs.Resolve.{resolve};
ghost use Rattle.tup_path.specs.Show as specs;
ghost use Rattle.tup_path.specs.Show.{GainsNames, HasBytes};

use crate::path::Path;
use crate::text::Text;
use std::alloc::{AllocError, Global};
use std::fmt;

impl fmt::Display for Path {
    ghost output = { λ path. Some (specs.show path) };

    fn fmt<W: fmt::Write>(&self, f: &mut fmt::Formatter<W>) -> fmt::Result {
        let Some((first, rest)) = self.names().split_first() else {
            return f.write_str(".");
        };
        f.write_str(first.as_str())?;
        for name in rest {
            write!(f, "/{name}")?;
        }
        Ok(())
    }
}

/// A law: what `show_from` writes, `resolve` reads back from the same folder, and what `show`
/// writes, from the top directory.
pub fn shown_reads_back(dir: &Path, path: &Path)
    ensures from { resolve dir.now (specs.show_from dir.now path.now) ≡ Ok path.now }
    ensures top { resolve [] (specs.show path.now) ≡ Ok path.now }
{
    let _names = (dir.depth(), path.depth());
}

/// How many names two paths share at their front.
pub(crate) fn shared(left: &[Text], right: &[Text]) -> usize
    ensures shared { result ≡ specs.shared left.now right.now }
    ensures left { result ≤ length left.now }
    ensures right { result ≤ length right.now }
{
    let mut count = 0;
    while count < left.len() && count < right.len() && left[count] == right[count] {
        count += 1;
    }
    count
}

/// The way up by so many folders and down by names.
pub(crate) fn written(alloc: Global, up: usize, names: &[Text]) -> Result<Text, AllocError>
    requires { All HasBytes names.now }
    ensures { IfOk result (λ text. text ≡ specs.show (replicate up (46 ∷ 46 ∷ []) ++ names.now)) }
{
    let mut shown = String::new(alloc);
    climb(&mut shown, up)?;
    descend(&mut shown, names)?;
    if shown.is_empty() {
        shown.push('.')?;
    }
    Ok(Text::from_string(shown))
}

fn climb(shown: &mut String, up: usize) -> Result<(), AllocError>
    requires { string_bytes shown.old ≡ [] }
    ensures { OnOk result
        (string_bytes shown.new ≡ join_with_byte 47 (replicate up (46 ∷ 46 ∷ []))) }
{
    for _ in 0..up {
        add(shown, "..")?;
    }
    Ok(())
}

fn descend(shown: &mut String, names: &[Text]) -> Result<(), AllocError>
    requires { All HasBytes names.now }
    ensures { OnOk result (GainsNames (string_bytes shown.old) (string_bytes shown.new) names.now) }
{
    for name in names {
        add(shown, name.as_str())?;
    }
    Ok(())
}

/// Adds a name behind those that are shown.
fn add(shown: &mut String, name: &str) -> Result<(), AllocError>
    ensures { OnOk result
        (GainsNames (string_bytes shown.old) (string_bytes shown.new) (name.now ∷ [])) }
{
    if !shown.is_empty() {
        shown.push('/')?;
    }
    shown.push_str(name)
}
