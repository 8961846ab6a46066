//! The bytes of a store in memory.
ghost use Rattle.std.specs.Prelude.{◌≡◌, ◌≤◌, length, OnOk, OnErr};
ghost use Rattle.tup_site.specs.Store.{Holds};

use std::alloc::AllocError;

/// Writes bytes over others from a place on, and past their end.
pub(crate) fn overwrite(store: &mut Vec<u8>, at: usize, bytes: &[u8]) -> Result<(), AllocError>
    requires { at ≤ length store.old.items }
    ensures written { OnOk result (Holds store.old.items at bytes.now store.new.items) }
    ensures unchanged { OnErr result (store.new.items ≡ store.old.items) }
{
    let inside = bytes.len().min(store.len() - at);
    store.extend_from_slice(&bytes[inside..])?;
    store[at..at + inside].copy_from_slice(&bytes[..inside]);
    Ok(())
}
