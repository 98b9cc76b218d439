//! How a whole file is read.
ghost use Rattle.std.specs.Prelude.{◌≡◌, ◌≤◌, ◌⊎◌, Some, IfOk, IsErrOf, vec_len};
ghost use Rattle.std.specs.Option.{ForSome};
ghost use Rattle.lk_io.specs.Counts.{Rose};
ghost use Rattle.lk_io.specs.Shelf.{IsFileName, IsLonger, ReadCounts, is_whole_failed};

use crate::fault::ReadFault;
use crate::shelf::Shelf;
use std::alloc::Global;

/// How many bytes are asked for at once.
const PIECE: usize = 4096;

/// Reads the named file whole, if it has at most `limit` bytes.
///
/// It asks for pieces of the file until one is empty or the limit is passed.
pub fn read_whole<F: Shelf>(
    alloc: Global,
    shelf: &mut F,
    name: &str,
    limit: u64,
) -> Result<Vec<u8>, ReadFault>
    requires { IsFileName name.now }

    // Where the shelf tells its files, what is answered is the named one.
    ensures file { ForSome (F.held shelf.old)
        (λ files. IfOk result (λ bytes. files name.now ≡ Some bytes.items)) }
    ensures within { IfOk result (λ bytes. vec_len bytes ≤ limit) }

    // Where it tells them, `TooLong` comes only at a file that is longer. It always comes there if no read fails.
    ensures too_long { ForSome (F.held shelf.old) (λ files. IsErrOf result ReadFault.TooLong
        → IsLonger (files name.now) limit) }
    ensures always_too_long { ForSome (F.held shelf.old) (λ files. IsLonger (files name.now) limit
        → ¬ Rose (F.faults shelf.old) (F.faults shelf.new)
        → IsErrOf result ReadFault.TooLong ⊎ IsErrOf result ReadFault.NoMemory) }

    ensures held { F.held shelf.new ≡ F.held shelf.old }
    ensures counts { ReadCounts name.now (F.faults shelf.old) (F.faults shelf.new)
        (F.bad shelf.old) (F.bad shelf.new)
        (is_whole_failed result) }
{
    let mut bytes = Vec::new(alloc);
    let mut piece = [0; PIECE];
    loop {
        let count = shelf.read(name, bytes.len() as u64, &mut piece)?;
        if count == 0 {
            return Ok(bytes);
        }
        if limit - (bytes.len() as u64) < count as u64 {
            return Err(ReadFault::TooLong);
        }
        bytes.extend_from_slice(&piece[..count])?;
    }
}
