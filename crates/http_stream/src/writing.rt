//! Writes all of some bytes.
ghost use Rattle.std.specs.Prelude.{◌≡◌, ℕ, ◌+◌, ◌-◌, ◌^◌, ◌<◌, ◌≤◌, length, take, OnOk, OnErr, IfOk, IfErr};
ghost use Rattle.std.specs.Io.KnownBytes.{Appends};

use crate::endpoints::Sink;
use crate::outcome::StreamFault;

/// Writes some of the bytes. There is at least one.
fn write_some<W: Sink>(writer: &mut W, bytes: &[u8]) -> Result<usize, StreamFault>
    requires { W.failures writer.old < 2 ^ 64 - 1 }
    ensures range { IfOk result (λ n. (0 < n) × (n ≤ length bytes.now)) }
    ensures ok { IfOk result (λ n. Appends (W.written writer.old) (W.written writer.new) (take n bytes.now)) }
    ensures err { OnErr result (Appends (W.written writer.old) (W.written writer.new) (take 0 bytes.now)) }
    ensures fault { IfErr result (λ e. e ≡ StreamFault.Write) }
    ensures count_ok { OnOk result (W.failures writer.new ≡ W.failures writer.old) }
    ensures count_err { OnErr result (W.failures writer.new ≡ W.failures writer.old + 1) }
{
    match writer.write(bytes) {
        Ok(n) => {
            // A writer that takes nothing could be asked for ever.
            if n == 0 {
                Err(StreamFault::Write)
            } else {
                Ok(n)
            }
        }
        Err(_) => Err(StreamFault::Write),
    }
}

/// Writes all of the bytes. Fails at the first write that fails.
pub fn write_all<W: Sink>(writer: &mut W, bytes: &[u8]) -> Result<(), StreamFault>
    requires { W.failures writer.old < 2 ^ 64 - 1 }
    ensures ok { OnOk result (Appends (W.written writer.old) (W.written writer.new) bytes.now) }
    ensures err { OnErr result ((n : ℕ) × (n < length bytes.now)
        × Appends (W.written writer.old) (W.written writer.new) (take n bytes.now)) }
    ensures fault { IfErr result (λ e. e ≡ StreamFault.Write) }
    ensures count_ok { OnOk result (W.failures writer.new ≡ W.failures writer.old) }
    ensures count_err { OnErr result (W.failures writer.new ≡ W.failures writer.old + 1) }
{
    let mut at = 0;
    // For no bytes no call is made: so an end without a refusal cannot fail.
    'writing: while at < bytes.len() {
        at += write_some(writer, &bytes[at..])?;
    }
    Ok(())
}
