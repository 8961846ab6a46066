//! What a field of a record is.
ghost use Rattle.std.specs.Prelude.{◌≡◌, ◌⊎◌, ◌++◌, MatchResult};

use crate::fault::RecordFault;
use crate::reader::Reader;
use std::alloc::Global;
use tup_path::Bytes;

/// A type whose values are spelled as bytes. Its format says which have a spelling, what it is, and how
/// bytes are read.
pub trait Field: Drop + Sized {
    ghost use Rattle.tup_field.specs.Format.{Format, IsExact, IsUnwritten};
    ghost use Rattle.tup_field.specs.declared.fault.RecordFault.TheVariants.{Memory};

    ghost format: { Format Self };

    /// Puts the value's spelling behind the bytes. A value in which a text has 2^32 bytes or more or a list 2^32
    /// members or more is refused as `BadField`, and no other is. After a refusal some of the spelling may stand
    /// behind the bytes.
    fn write(&self, bytes: &mut Bytes) -> Result<(), RecordFault>
        ensures { MatchResult result
            (λ _. format.Fits self.now × (bytes.new ≡ bytes.old ++ format.spelling self.now))
            (IsUnwritten (format.Writable self.now)) };

    /// Reads a value from the front of the bytes that are left. The first place from the left that doesn't fit is
    /// refused. After a refusal some of the bytes are taken.
    fn read(alloc: Global, reader: &mut Reader<'_>) -> Result<Self, RecordFault>
        ensures { MatchResult result
            (λ value. format.reading reader.old ≡ Ok (value, reader.new))
            (λ fault. (fault ≡ Memory) ⊎ (format.reading reader.old ≡ Err fault)) };

    ghost exact: { IsExact format };
}
