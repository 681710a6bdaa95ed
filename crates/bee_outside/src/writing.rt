//! Writing a whole text.

ghost use Rattle.std.specs.Prelude.{◌≡◌, ◌≤◌, OnOk, OnErr};
ghost use Rattle.bee_outside.specs.Faults.{counted};
ghost use Rattle.bee_outside.specs.Bytes.{grown, AllFlushed, GrewByFront};

use crate::failed::Failed;
use crate::sink::Sink;

/// Writes a text whole, and flushes it. Each turn hands on at least one byte. It takes no memory.
pub fn write_all<O: Sink>(sink: &mut O, text: &[u8]) -> Result<(), Failed>
    ensures written { OnOk result (O.taken sink.new ≡ grown (O.taken sink.old) text.now) }
    ensures flushed { OnOk result (AllFlushed (O.taken sink.new) (O.flushed sink.new)) }
    ensures fault_took_front { OnErr result
        (GrewByFront (O.taken sink.old) text.now (O.taken sink.new)) }

    // A fault ends it: no call follows one that failed.
    ensures counts_faults { O.faults sink.new ≡ counted result (O.faults sink.old) }
{
    let mut done = 0;
    while done < text.len() {
        match sink.put(&text[done..]) {
            Ok(taken) => done += taken,
            Err(Failed) => return Err(Failed),
        }
    }
    sink.flush()
}
