ghost use Rattle.std.specs.Prelude.{◌≡◌, ◌≤◌};
ghost use Rattle.hys_app.specs.Simulating.{ReadsTable};

use crate::stage::{Stage, read_bytes, report_long};
use hys_base::List;
use hys_io::Files;
use std::alloc::{AllocError, Global};

const MOST_BYTES: u64 = 67_108_864;

/// Reads a table, whose bytes are judged later.
pub fn read_table<F: Files>(
    alloc: Global,
    name: &str,
    files: &mut F,
) -> Result<Stage<List<u8>>, AllocError>
    ensures stage { ReadsTable F.Files files.old files.new name.now result }
    ensures reads { F.read_faults files.old ≤ F.read_faults files.new }
    ensures held { F.held files.new ≡ F.held files.old }
    ensures puts { F.put_faults files.new ≡ F.put_faults files.old }
{
    match read_bytes(alloc, name, MOST_BYTES, files)? {
        Stage::End(outcome) => Ok(Stage::End(outcome)),
        Stage::Next(None) => Ok(Stage::End(report_long(alloc, name)?)),
        Stage::Next(Some(bytes)) => Ok(Stage::Next(bytes)),
    }
}
