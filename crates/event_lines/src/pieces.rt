ghost use Rattle.std.specs.Prelude.{◌≡◌, ◌++◌, OnOk, decimal};

use alt_base::NoMemory;
use std::alloc::Global;

// Appends a piece to a line.
pub(crate) fn append(line: &mut Vec<u8>, piece: &[u8]) -> Result<(), NoMemory>
    ensures { OnOk result (line.new.items ≡ line.old.items ++ piece.now) }
{
    line.extend_from_slice(piece)?;
    Ok(())
}

// Appends a number to a line.
pub(crate) fn append_number(line: &mut Vec<u8>, alloc: Global, number: u64) -> Result<(), NoMemory>
    ensures { OnOk result (line.new.items ≡ line.old.items ++ decimal number) }
{
    line.extend_from_slice(number.to_string(alloc)?.as_bytes())?;
    Ok(())
}
