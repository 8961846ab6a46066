//! What stands behind names in a Tupfile: variables, the settings of tup.config, and conditionals.
//!
//! Contracts see `Vars` and `Config` as the list of their names and values, in the order in which the
//! names came first, and `Branches` as the list of its levels from the outermost on.
#![tactic(auto)]

mod asked;
mod branches;
mod config;
mod expand;
mod fault;
mod lookup;
mod name;
mod opening;
mod table;
mod vars;

pub use asked::setting_names;
pub use branches::{Branches, Level, MAX_OPEN};
pub use config::{Config, config_lines, read_config};
pub use expand::expansion_laws;
pub use fault::{ConfigFault, VarFault};
pub use lookup::{Lookup, Stopped};
pub use name::{is_free, is_name};
pub use vars::Vars;
