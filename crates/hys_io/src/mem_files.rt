ghost use Rattle.std.specs.Prelude.{◌≡◌, ◌-◌, ◌≤◌, ◌↔◌, min, length, take, drop, option_map, is_ok, IsErrOf, OnOk, OnErr, IfOk, IfErr, Contains};
ghost use Rattle.std.specs.FinMap as map;
ghost use Rattle.hys_io.specs.Entries.{files_of};
ghost use Rattle.hys_io.specs.Outside.{Stays, raised, IfRead};
ghost use Rattle.hys_io.specs.InMemory.{given_files, IsRefusedRead, after_read, after_put, after_failed_put};

use crate::schedule::Schedule;
use crate::{Failure, Files};
use std::alloc::Global;
use std::marker::Model;

/// Files in memory, of which chosen calls fail. Reads and puts are numbered together, from 1.
#[derive(Drop)]
pub struct MemFiles {
    alloc: Global,
    files: Vec<(String, Vec<u8>)>,
    schedule: Schedule,
    read_faults: u64,
    put_faults: u64,
}

impl Model for MemFiles {
    ghost use Rattle.hys_io.specs.Entries.{files_of};
    ghost use Rattle.hys_io.specs.InMemory.{FilesInMemory, files_code};

    ghost Value = { FilesInMemory };

    ghost coded = { files_code };

    ghost view = { λ s. record {
      files = files_of s.files.items;
      failing = s.schedule.failing.items;
      calls = s.schedule.calls;
      read_faults = s.read_faults;
      put_faults = s.put_faults;
    } };
}

impl MemFiles {
    /// Files with these names and bytes, where of a name that is given twice the last counts. The
    /// calls whose numbers are in `failing` will fail. Memory for later puts comes from `alloc`.
    pub fn new(alloc: Global, files: Vec<(String, Vec<u8>)>, failing: Vec<u64>) -> MemFiles
        ensures { result ≡ given_files files.items failing.items }
    {
        MemFiles {
            alloc,
            files,
            schedule: Schedule { failing, calls: 0 },
            read_faults: 0,
            put_faults: 0,
        }
    }

    /// What the name holds: None exactly where the name isn't there. It counts as no call.
    pub fn get(&self, name: &str) -> Option<&[u8]>
        ensures { option_map (λ bytes. bytes.now) result ≡ map.get self.now.files name.now }
    {
        find(&self.files, name)
    }
}

impl Files for MemFiles {
    ghost use Rattle.std.specs.Prelude.{Some};

    ghost held = { λ s. Some s.files };

    ghost read_faults = { λ s. s.read_faults };

    ghost put_faults = { λ s. s.put_faults };

    fn read_at(&mut self, name: &str, at: u64, into: &mut [u8]) -> Result<usize, Failure>
        ensures bound { IfOk result (λ count. count ≤ length into.new) }
        ensures found { IfOk result (λ count. IfRead (Some self.old.files) name.now at count into.new) }
        ensures counted { self.old.read_faults ≤ self.new.read_faults }
        ensures stays { Stays self.old.read_faults self.new.read_faults }

        // It is refused where its number is listed or the name isn't there, and for nothing else.
        ensures refused { IsErrOf result Failure.Fault ↔ IsRefusedRead self.old name.now }
        ensures fault { IfErr result (λ e. e ≡ Failure.Fault) }
        ensures after { self.new ≡ after_read (is_ok result) self.old }
    {
        if self.schedule.fails() {
            self.read_faults = self.read_faults.saturating_add(1);
            return Err(Failure::Fault);
        }
        match find(&self.files, name) {
            None => {
                self.read_faults = self.read_faults.saturating_add(1);
                Err(Failure::Fault)
            }
            Some(bytes) => Ok(copy_from(bytes, at, into)),
        }
    }

    fn put(&mut self, name: &str, bytes: &[u8]) -> Result<(), Failure>
        ensures counted { self.old.put_faults ≤ self.new.put_faults }
        ensures stays { Stays self.old.put_faults self.new.put_faults }

        // The outside refuses it exactly where its number is listed. A refused put changes no file.
        ensures refused { IsErrOf result Failure.Fault ↔ Contains self.old.failing (raised self.old.calls) }
        ensures after_ok { OnOk result (self.new ≡ after_put self.old name.now bytes.now) }
        ensures after_fault { IsErrOf result Failure.Fault → self.new ≡ after_failed_put self.old }
        ensures after_memory { IsErrOf result Failure.Memory → self.new ≡ record self.old {
          calls = raised self.old.calls;
        } }
    {
        if self.schedule.fails() {
            self.put_faults = self.put_faults.saturating_add(1);
            return Err(Failure::Fault);
        }
        add(self.alloc, &mut self.files, name, bytes)
    }
}

// The last of the files with this name.
fn find<'a>(files: &'a [(String, Vec<u8>)], name: &str) -> Option<&'a [u8]>
    ensures { option_map (λ bytes. bytes.now) result ≡ map.get (files_of files.now) name.now }
{
    let mut end = files.len();
    while end > 0 {
        end -= 1;
        let file = &files[end];
        if file.0.as_str() == name {
            return Some(file.1.as_slice());
        }
    }
    None
}

// Copies what is there from a place on, as far as there is room, and answers how much that is.
fn copy_from(bytes: &[u8], at: u64, into: &mut [u8]) -> usize
    ensures count { result ≡ min (length into.old) (length bytes.now - at) }
    ensures copied { take result into.new ≡ take result (drop at bytes.now) }
{
    if at >= bytes.len() as u64 {
        return 0;
    }
    let rest = &bytes[at as usize..];
    let count = rest.len().min(into.len());
    into[..count].copy_from_slice(&rest[..count]);
    count
}

// Adds a file behind the others, so that it counts before an earlier one of its name.
fn add(
    alloc: Global,
    files: &mut Vec<(String, Vec<u8>)>,
    name: &str,
    bytes: &[u8],
) -> Result<(), Failure>
    ensures ok { OnOk result (files_of files.new.items
        ≡ map.insert (files_of files.old.items) name.now bytes.now) }
    ensures err { OnErr result (files.new.items ≡ files.old.items) }
    ensures memory { IfErr result (λ e. e ≡ Failure.Memory) }
{
    let name = String::from_str(alloc, name)?;
    let bytes = Vec::from_slice(alloc, bytes)?;
    files.push((name, bytes))?;
    Ok(())
}
