ghost use Rattle.std.specs.Prelude.{◌≡◌, ◌≤◌, ℕ, take, OnOk, OnErr, IsErrOf};
ghost use Rattle.hys_io.specs.Outside.{Rose, Stays, IfAppended};

use crate::{Failure, Sink};

/// Writes all of the text, in as many pieces as the sink takes: at most one for each byte.
///
/// # Errors
///
/// `Fault` where a write fails, `Memory` for want of memory. A prefix of the text was then written.
pub fn write_all<S: Sink>(out: &mut S, text: &[u8]) -> Result<(), Failure>
    ensures all { OnOk result (IfAppended (S.written out.old) (S.written out.new) text.now) }
    ensures part { OnErr result ((n : ℕ)
        × IfAppended (S.written out.old) (S.written out.new) (take n text.now)) }
    ensures cause { IsErrOf result Failure.Fault → Rose (S.faults out.old) (S.faults out.new) }
    ensures counted { S.faults out.old ≤ S.faults out.new }
    ensures stays { Stays (S.faults out.old) (S.faults out.new) }
    ensures calm { OnOk result (S.faults out.new ≡ S.faults out.old) }
    ensures calm_memory { IsErrOf result Failure.Memory → S.faults out.new ≡ S.faults out.old }
{
    let mut done = 0;
    while done < text.len() {
        done += out.write(&text[done..])?;
    }
    Ok(())
}
