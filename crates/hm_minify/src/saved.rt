//! Writes the files of a run.
ghost use Rattle.std.specs.Prelude.{◌≡◌, OnOk, OnErr};
ghost use Rattle.hm_store.specs.Causes.{HasCause};
ghost use Rattle.hm_minify.specs.Writes as spec;

use crate::ended::Output;
use hm_store::{Failed, Store, write_file};

/// Writes the files one after the other, each only once the one before is whole. Stops at the first call that fails.
pub fn save<S: Store>(store: &mut S, outputs: &[Output<'_>]) -> Result<(), Failed>
    ensures ok { OnOk result (S.files store.new ≡ spec.after_writes (S.files store.old) outputs.now) }
    ensures err { OnErr result (spec.IsLeft (S.files store.old) outputs.now (S.files store.new)) }
    ensures cause { HasCause (S.faults store.old) (S.faults store.new) result }
{
    for output in outputs {
        write_file(store, output.name, &output.bytes[output.from..])?;
    }
    Ok(())
}
