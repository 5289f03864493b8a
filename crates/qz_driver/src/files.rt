//! A mode's files: read within their limits, and put under a name with an ending.

ghost use Rattle.std.specs.Prelude.{◌≡◌, ◌≤◌, ◌++◌, length, string_bytes, IfOk, IfErr, OnOk};
ghost use Rattle.qz_io.specs.Answers.{IfBytes};
ghost use Rattle.qz_driver.specs.declared.work.Stop.TheVariants as stop;
ghost use Rattle.qz_driver.specs.Answers.{files_seen};
ghost use Rattle.qz_driver.specs.Work.{content_of, IsFound, IsUngot};

use crate::work::{Output, Stop};
use qz_io::{FileFault, Files, Got};
use std::alloc::Global;

/// What is found under the name of a file that may have `limit` bytes.
pub fn content<F: Files>(alloc: Global, files: &mut F, name: &str, limit: u64) -> Result<Got, Stop>
    ensures found { IfOk result (λ got. IsFound name.now limit (files_seen F.Files files.old).held (content_of got)) }
    ensures within { IfOk result (λ got. IfBytes got (λ bytes. length bytes ≤ limit)) }
    ensures stays { OnOk result (files_seen F.Files files.new ≡ files_seen F.Files files.old) }
    ensures ungot { IfErr result (IsUngot name.now (files_seen F.Files files.old) (files_seen F.Files files.new)) }
{
    match files.get(alloc, name, limit) {
        Ok(got) => Ok(got),
        Err(FileFault::Failed) => Err(Stop::Unread),
        Err(FileFault::Memory) => Err(Stop::Memory),
    }
}

/// The file with these bytes under a module's name with an ending.
pub fn output_file(alloc: Global, name: &str, ending: &str, bytes: Vec<u8>) -> Result<Output, Stop>
    ensures name { IfOk result (λ output. string_bytes output.name ≡ name.now ++ ending.now) }
    ensures bytes { IfOk result (λ output. output.bytes.items ≡ bytes.items) }
    ensures err { IfErr result (λ fault. fault ≡ stop.Memory) }
{
    let name = format!(in alloc; "{name}{ending}")?;
    Ok(Output { name, bytes })
}
