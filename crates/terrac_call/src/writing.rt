// Pieces that go out.

ghost use Rattle.std.specs.Prelude.{◌≡◌, ◌≢◌, ◌≤◌, [], OnOk, OnErr};
ghost use Rattle.tl_base.specs.Outside.{with_back};
ghost use Rattle.terrac_call.specs.Delivery.{StopsShort};

use tl_base::{Failed, Sink};

/// Writes a whole piece, in as many calls of the sink as it wants. An empty piece makes none. The first call that fails, or that
/// takes nothing, ends it.
pub(crate) fn write_piece<K: Sink>(sink: &mut K, piece: &[u8]) -> Result<(), Failed>
    ensures empty { piece.now ≡ [] → sink.new ≡ sink.old }
    ensures whole { OnOk result (K.taken sink.new ≡ with_back (K.taken sink.old) piece.now) }
    ensures quiet { OnOk result (K.faults sink.new ≡ K.faults sink.old) }
    ensures never_falls { K.faults sink.old ≤ K.faults sink.new }
    ensures some { OnErr result (piece.now ≢ []) }
    ensures short { OnErr result (StopsShort piece.now (K.taken sink.old) (K.taken sink.new) (K.faults sink.old) (K.faults sink.new)) }
{
    let mut rest = piece;
    'pieces: while !rest.is_empty() {
        match sink.write(rest) {
            Ok(0) => return Err(Failed),
            Ok(count) => rest = &rest[count..],
            Err(Failed) => return Err(Failed),
        }
    }
    Ok(())
}
