//! Files, read in one piece.

ghost use Rattle.std.specs.Prelude.{◌^◌, ◌<◌, IfOk, IfErr};
ghost use Rattle.host.specs.WorldState.{IsReadOf};
ghost use Rattle.cli.specs.Imports.{IsUnreadOf};

use host::World;
use office_model::Refusal;
use std::io::ErrorKind;

/// Reads at most `most + 1` bytes of a file.
pub(crate) fn read_file<W: World>(world: &W, path: &str, most: usize) -> Result<Vec<u8>, Refusal>
    requires { most < 2 ^ 32 }
    ensures ok { IfOk result (λ bytes. IsReadOf ((W.state world.now).holds path.now) most bytes.items) }
    ensures err { IfErr result (IsUnreadOf ((W.state world.now).holds path.now)) }
{
    match world.read(path, most) {
        Ok(bytes) => Ok(bytes),
        Err(error) if error.kind() == ErrorKind::OutOfMemory => Err(Refusal::Memory),
        Err(_) => Err(Refusal::Storage),
    }
}
