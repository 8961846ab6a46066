//! How many rules a graph has.
ghost use Rattle.std.specs.Prelude.{◌≡◌, length, IfOk, IfErr};

use tup_graph::{GraphFault, Nodes};

/// How many rules a graph has. More than numbers can count have no room in memory.
pub fn rule_count(nodes: &Nodes) -> Result<u32, GraphFault>
    ensures count { IfOk result (λ count. count ≡ length nodes.now.rules) }
    ensures memory { IfErr result (λ fault. fault ≡ GraphFault.Memory) }
{
    match u32::try_from(nodes.rules().len()) {
        Ok(count) => Ok(count),
        Err(_) => Err(GraphFault::Memory),
    }
}
