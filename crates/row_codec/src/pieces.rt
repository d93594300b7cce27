//! Parts that rows are made of.
ghost use Rattle.std.specs.Prelude.{◌≡◌, ◌++◌, replicate, OnOk};

use ids_base::memory::Memory;

/// Puts so many bytes of one kind at the end.
pub fn pad(bytes: &mut Vec<u8>, byte: u8, count: usize) -> Result<(), Memory>
    ensures { OnOk result (bytes.new.items ≡ bytes.old.items ++ replicate count byte) }
{
    for _ in 0..count {
        bytes.push(byte)?;
    }
    Ok(())
}
