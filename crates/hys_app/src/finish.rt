ghost use Rattle.std.specs.Prelude.{◌≡◌, ◌≤◌, IsErrOf, OnOk};
ghost use Rattle.hys_io.specs.Outside.{Rose};
ghost use Rattle.hys_app.specs.Ends.{Between, IsCarriedOut, IsPut, IsTorn};

use crate::Status;
use crate::outcome::{NewFile, Outcome};
use hys_io::{Failure, Files, Sink, write_all};

// Puts the file, where there is one.
fn put_file<F: Files>(file: &Option<NewFile>, files: &mut F) -> Result<(), Failure>
    ensures done { OnOk result (IsPut file.now (F.held files.old) (F.held files.new)) }
    ensures torn { IsErrOf result Failure.Fault → IsTorn file.now (F.held files.old) (F.held files.new) }
    ensures unchanged { IsErrOf result Failure.Memory → F.held files.new ≡ F.held files.old }
    ensures cause { IsErrOf result Failure.Fault → Rose (F.put_faults files.old) (F.put_faults files.new) }
    ensures counted { F.put_faults files.old ≤ F.put_faults files.new }
    ensures calm { OnOk result (F.put_faults files.new ≡ F.put_faults files.old) }
    ensures calm_memory { IsErrOf result Failure.Memory → F.put_faults files.new ≡ F.put_faults files.old }
    ensures reads { F.read_faults files.new ≡ F.read_faults files.old }
{
    match file {
        None => Ok(()),
        Some(file) => files.put(file.name.text(), file.bytes.items()),
    }
}

// Carries the outcome out: puts its file, and prints its line after that.
#[tactic(auto, using(crate::proofs::Ends::by_unput, crate::proofs::Ends::by_torn, crate::proofs::Ends::by_cut, crate::proofs::Ends::by_short, crate::proofs::Ends::by_whole))]
pub fn carry_out<F: Files, S: Sink>(outcome: &Outcome, files: &mut F, out: &mut S) -> Status
    ensures carried { Between F.Files S.Sink files.old out.old files.new out.new (IsCarriedOut outcome.now result) }
    ensures reads { F.read_faults files.new ≡ F.read_faults files.old }
{
    match put_file(&outcome.file, files) {
        Err(Failure::Fault) => Status::Write,
        Err(Failure::Memory) => Status::Memory,
        Ok(()) => match write_all(out, outcome.line.items()) {
            Err(Failure::Fault) => Status::Write,
            Err(Failure::Memory) => Status::Memory,
            Ok(()) => outcome.status,
        },
    }
}
