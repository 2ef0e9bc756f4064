// Writing to a sink.

ghost use Rattle.std.specs.Prelude.{◌≡◌, ◌<◌, length, OnOk, OnErr};
ghost use Rattle.tl_base.specs.Outside.{IsRisen, with_back};
ghost use Rattle.rv_machine.specs.Output.{TookFront};

use tl_base::{Failed, Sink};

/// Writes all bytes. Where the sink fails or takes nothing, it took a front of them and not all.
pub(crate) fn write_all<K: Sink>(out: &mut K, bytes: &[u8]) -> Result<(), Failed>
    ensures took { OnOk result (K.taken out.new ≡ with_back (K.taken out.old) bytes.now) }
    ensures quiet { OnOk result (K.faults out.new ≡ K.faults out.old) }
    ensures front { OnErr result (TookFront bytes.now (K.taken out.old) (K.taken out.new)) }
    ensures risen { OnErr result (IsRisen (K.faults out.old) (K.faults out.new)) }
{
    let mut done = 0;
    while done < bytes.len() {
        let count = out.write(&bytes[done..])?;
        if count == 0 {
            return Err(Failed);
        }
        done += count;
    }
    Ok(())
}
