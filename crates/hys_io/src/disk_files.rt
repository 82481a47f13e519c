ghost use Rattle.std.specs.Prelude.{◌≡◌, ◌≤◌, length, is_ok, IfOk, IfErr};
ghost use Rattle.hys_io.specs.Outside.{Stays};
ghost use Rattle.hys_io.specs.Counts.{counted_read, counted_put};

use crate::{Failure, Files};
use std::fs::File;
use std::io::{Read, Seek, SeekFrom};
use std::marker::Model;
use std::rt::Files as System;
use std::{fs, io};

/// The files of the system, by their paths. What they hold isn't told.
#[derive(Drop)]
pub struct DiskFiles<R: System + Drop> {
    system: R,
    read_faults: u64,
    put_faults: u64,
}

impl<R: System + Drop> Model for DiskFiles<R> {
    ghost use Rattle.hys_io.specs.Counts.{FaultCounts};

    ghost Value = { FaultCounts };

    ghost view = { λ s. record { read_faults = s.read_faults; put_faults = s.put_faults } };
}

impl<R: System + Drop> DiskFiles<R> {
    /// The files that this runtime reaches, with no fault counted yet.
    pub fn new(system: R) -> DiskFiles<R>
        ensures { result ≡ record { read_faults = 0; put_faults = 0 } }
    {
        DiskFiles {
            system,
            read_faults: 0,
            put_faults: 0,
        }
    }
}

impl<R: System + Drop> Files for DiskFiles<R> {
    ghost use Rattle.std.specs.Prelude.{None};

    ghost held = { λ s. None };

    ghost read_faults = { λ s. s.read_faults };

    ghost put_faults = { λ s. s.put_faults };

    fn read_at(&mut self, name: &str, at: u64, into: &mut [u8]) -> Result<usize, Failure>
        ensures bound { IfOk result (λ count. count ≤ length into.new) }
        ensures counted { self.old.read_faults ≤ self.new.read_faults }
        ensures stays { Stays self.old.read_faults self.new.read_faults }

        // It counts exactly its faults, and has no need of memory.
        ensures fault { IfErr result (λ e. e ≡ Failure.Fault) }
        ensures after { self.new ≡ counted_read (is_ok result) self.old }
    {
        match read_part(&self.system, name, at, into) {
            Ok(count) => Ok(count),
            Err(_) => {
                self.read_faults = self.read_faults.saturating_add(1);
                Err(Failure::Fault)
            }
        }
    }

    fn put(&mut self, name: &str, bytes: &[u8]) -> Result<(), Failure>
        ensures counted { self.old.put_faults ≤ self.new.put_faults }
        ensures stays { Stays self.old.put_faults self.new.put_faults }

        // It counts exactly its faults, and has no need of memory.
        ensures fault { IfErr result (λ e. e ≡ Failure.Fault) }
        ensures after { self.new ≡ counted_put (is_ok result) self.old }
    {
        match fs::write(&self.system, name, bytes) {
            Ok(()) => Ok(()),
            Err(_) => {
                self.put_faults = self.put_faults.saturating_add(1);
                Err(Failure::Fault)
            }
        }
    }
}

// Reads a part of the file. The file is opened anew, which a reader of large parts hardly notices.
fn read_part<R: System>(system: &R, name: &str, at: u64, into: &mut [u8]) -> io::Result<usize>
    ensures { IfOk result (λ count. count ≤ length into.new) }
{
    let mut file = File::open(system, name)?;
    file.seek(SeekFrom::Start(at))?;
    file.read(into)
}
