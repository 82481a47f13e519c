ghost use Rattle.std.specs.Prelude.{◌≡◌, ◌≤◌, ◌<◌, length, take, vec_len, IfOk, OnOk, IsErrOf};
ghost use Rattle.hys_io.specs.Outside.{Rose, Stays, IfHolds};
ghost use Rattle.hys_io.specs.declared.reading.ReadFault.TheVariants.{Memory};

use crate::{Failure, Files};
use std::alloc::{AllocError, Global};

/// Why a file wasn't read.
#[derive(Clone, Copy, Debug, PartialEq, Eq)]
pub enum ReadFault {
    /// A read failed, as where the name isn't there.
    Fault,
    /// The file has more bytes than the caller takes.
    TooLong,
    /// There was no memory for the bytes.
    Memory,
}

impl From<AllocError> for ReadFault {
    ghost from_gives = { λ _ e. e ≡ Memory };

    fn from(_: AllocError) -> ReadFault {
        ReadFault::Memory
    }
}

// The bytes that the first read asks for. Later reads ask for more and more.
const FIRST_LEN: usize = 64 * 1024;

/// Reads the whole file, of at most `limit` bytes. It reads until no byte comes, so it makes at most
/// `limit + 2` reads.
///
/// # Errors
///
/// `Fault` where a read fails, `TooLong` where the file has more than `limit` bytes, and `Memory`
/// for want of memory.
pub fn read_all<F: Files>(
    alloc: Global,
    files: &mut F,
    name: &str,
    limit: u64,
) -> Result<Vec<u8>, ReadFault>
    ensures whole { IfOk result (λ bytes.
        IfHolds (F.held files.old) name.now (λ file. bytes.items ≡ file)) }
    ensures short { IfOk result (λ bytes. length bytes.items ≤ limit) }
    ensures long { IsErrOf result ReadFault.TooLong
        → IfHolds (F.held files.old) name.now (λ file. limit < length file) }
    ensures cause { IsErrOf result ReadFault.Fault
        → Rose (F.read_faults files.old) (F.read_faults files.new) }
    ensures counted { F.read_faults files.old ≤ F.read_faults files.new }
    ensures stays { Stays (F.read_faults files.old) (F.read_faults files.new) }
    ensures calm { OnOk result (F.read_faults files.new ≡ F.read_faults files.old) }
    ensures calm_long { IsErrOf result ReadFault.TooLong
        → F.read_faults files.new ≡ F.read_faults files.old }
    ensures calm_memory { IsErrOf result ReadFault.Memory
        → F.read_faults files.new ≡ F.read_faults files.old }
    ensures same { F.held files.new ≡ F.held files.old }
    ensures puts { F.put_faults files.new ≡ F.put_faults files.old }
{
    let mut bytes = Vec::new(alloc);
    let mut filled = 0;
    loop {
        make_room(&mut bytes, filled, limit)?;
        match files.read_at(name, filled as u64, &mut bytes[filled..]) {
            Err(Failure::Fault) => return Err(ReadFault::Fault),
            Err(Failure::Memory) => return Err(ReadFault::Memory),
            Ok(0) => {
                bytes.truncate(filled);
                return Ok(bytes);
            }
            Ok(count) => {
                if limit - (filled as u64) < count as u64 {
                    return Err(ReadFault::TooLong);
                }
                filled += count;
            }
        }
    }
}

// Makes room behind the bytes that are filled, where there is none. The length doubles, but is at
// most one more than the limit: by that byte a file that is too long is known.
fn make_room(bytes: &mut Vec<u8>, filled: usize, limit: u64) -> Result<(), AllocError>
    requires within { filled ≤ vec_len bytes.old }
    requires below { filled ≤ limit }
    ensures room { OnOk result (filled < vec_len bytes.new) }
    ensures same { take filled bytes.new.items ≡ take filled bytes.old.items }
{
    if filled < bytes.len() {
        return Ok(());
    }
    let more = (filled.max(FIRST_LEN) as u64).min((limit - filled as u64).saturating_add(1));
    bytes.resize(filled + more as usize, 0)
}
