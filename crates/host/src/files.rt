//! Files, read in one piece.

ghost use Rattle.std.specs.Prelude.{◌≡◌, ◌+◌, ◌^◌, ◌<◌, take, IfOk, IfSome};

use std::alloc::Global;
use std::io::{self, Read};

/// Reads what a reader gives up to its end, or up to the first byte above the limit. An `Err` is that of the reading, or out of memory.
pub fn read_up_to<R: Read + Drop>(alloc: Global, reader: R, most: usize) -> io::Result<Vec<u8>>
    requires { most < 2 ^ 32 }
    ensures { IfOk result (λ bytes. IfSome (R.remaining reader) (λ all. bytes.items ≡ take (most + 1) all)) }
{
    let mut bytes = Vec::new(alloc);
    reader.take(most as u64 + 1).read_to_end(&mut bytes)?;
    Ok(bytes)
}
