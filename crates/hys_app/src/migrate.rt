ghost use Rattle.std.specs.Prelude.{◌≡◌, ◌≤◌, IfOk};
ghost use Rattle.hys_app.specs.Words.{migrate};
ghost use Rattle.hys_app.specs.Migrating.{IsMigratedTo};
ghost use Rattle.hys_app.specs.Commands.{Obeys};

use crate::lines::describe_migrated;
use crate::matrices::read_matrices;
use crate::outcome::{NewFile, Outcome};
use crate::stage::Stage;
use crate::status::Status;
use hys_base::{List, Text};
use hys_file::write_system;
use hys_io::Files;
use hys_sys::System;
use std::alloc::{AllocError, Global};

// The outcome where the old text is a matrix text.
fn report_migrated(alloc: Global, system: &System, target: &str) -> Result<Outcome, AllocError>
    ensures { IfOk result (IsMigratedTo target.now system.now) }
{
    let bytes = List::of(write_system(alloc, system)?);
    let name = Text::of(String::from_str(alloc, target)?);
    Ok(Outcome {
        status: Status::Done,
        line: List::of(describe_migrated(alloc, system)?.into_bytes()),
        file: Some(NewFile { name, bytes }),
    })
}

/// Reads a matrix text of either version, and writes it in the newest.
#[tactic(auto, using(crate::proofs::Migrating::migrate_ended, crate::proofs::Migrating::migrate_done))]
pub fn conclude_migrate<F: Files>(
    alloc: Global,
    old: &str,
    new: &str,
    files: &mut F,
) -> Result<Outcome, AllocError>
    ensures reached { Obeys F.Files files.old files.new (migrate old.now new.now) result }
    ensures reads { F.read_faults files.old ≤ F.read_faults files.new }
    ensures held { F.held files.new ≡ F.held files.old }
    ensures puts { F.put_faults files.new ≡ F.put_faults files.old }
{
    match read_matrices(alloc, old, files)? {
        Stage::End(outcome) => Ok(outcome),
        Stage::Next(system) => report_migrated(alloc, &system, new),
    }
}
