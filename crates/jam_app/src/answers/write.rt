//! Writing a whole text.
ghost use Rattle.std.specs.Prelude.{◌≡◌, OnOk, OnErr};
ghost use Rattle.jam_base.specs.Causes.{HasCause};
ghost use Rattle.jam_app.specs.Written.{TakesAll, TakesFront};

use jam_base::{Failed, Sink};

/// Writes all bytes, in as many pieces as the sink takes. After a failure a front of them is written.
pub(crate) fn write_all<O: Sink>(out: &mut O, bytes: &[u8]) -> Result<(), Failed>
    ensures all { OnOk result (TakesAll (O.taken out.old) (O.taken out.new) bytes.now) }
    ensures front { OnErr result (TakesFront (O.taken out.old) (O.taken out.new) bytes.now) }
    ensures cause { HasCause (O.faults out.old) (O.faults out.new) result }
{
    let mut done = 0;
    while done < bytes.len() {
        let rest = &bytes[done..];
        let count = out.write(rest)?;
        done += count;
    }
    Ok(())
}
