//! Complete texts, written to a sink.
ghost use Rattle.std.specs.Prelude.{◌-◌, ◌^◌, ◌<◌};
ghost use Rattle.bw_io.specs.Sink.{GoesOut};

use crate::failed::Failed;
use crate::sink::Sink;
use bw_model::{Fault, code};

/// Writes a complete text. The sink's count of failures must be less than 2^64 - 1. Errors: 702 at
/// the first write that fails; a part from the text's front has then been written.
#[tactic(auto, using(crate::proofs::TakenBytes::more_taken))]
pub fn write_whole<K: Sink>(sink: &mut K, text: &[u8]) -> Result<(), Fault>
    requires { (K.state sink.old).failures < 2 ^ 64 - 1 }
    ensures { GoesOut (K.state sink.old) (K.state sink.new) text.now result }
{
    let mut written = 0;
    while written < text.len() {
        match sink.write(&text[written..]) {
            Ok(n) => written += n,
            Err(Failed) => return Err(Fault::new(code::WRITE_FAILED)),
        }
    }
    Ok(())
}
