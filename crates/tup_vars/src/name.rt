//! Names of variables and of settings.
ghost use Rattle.std.specs.Prelude.{◌≡◌};
ghost use Rattle.tup_vars.specs.Name.{is_name_byte, is_name, is_free, is_config, is_cwd};

/// Whether it is a name: one or more ASCII letters, digits and `_`.
pub fn is_name(name: &str) -> bool
    ensures { result ≡ is_name name.now }
{
    !name.is_empty() && name.as_bytes().iter().all(|byte| is_name_byte(*byte))
}

fn is_name_byte(byte: u8) -> bool
    ensures { result ≡ is_name_byte byte }
{
    byte.is_ascii_alphanumeric() || byte == b'_'
}

/// Whether a variable may have this name: settings and `TUP_CWD` aren't set in a Tupfile.
pub fn is_free(name: &str) -> bool
    ensures { result ≡ is_free name.now }
{
    is_name(name) && !is_config(name) && !is_cwd(name)
}

fn is_config(name: &str) -> bool
    ensures { result ≡ is_config name.now }
{
    name.starts_with("CONFIG_")
}

/// Whether it stands for the directory of the file being read.
pub(crate) fn is_cwd(name: &str) -> bool
    ensures { result ≡ is_cwd name.now }
{
    name == "TUP_CWD"
}
