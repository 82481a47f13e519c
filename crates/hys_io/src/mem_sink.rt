ghost use Rattle.std.specs.Prelude.{◌≡◌, ◌<◌, ◌≤◌, ◌↔◌, [], length, take, IsErrOf, OnOk, OnErr, IfOk, Contains};
ghost use Rattle.hys_io.specs.Outside.{Stays, raised};
ghost use Rattle.hys_io.specs.InMemory.{Appends, after_write, after_failed_write};

use crate::schedule::Schedule;
use crate::{Failure, Sink};
use std::alloc::Global;
use std::marker::Model;

/// A sink in memory, of which chosen writes fail. Writes are numbered from 1.
#[derive(Drop)]
pub struct MemSink {
    bytes: Vec<u8>,
    schedule: Schedule,
    faults: u64,
}

impl Model for MemSink {
    ghost use Rattle.hys_io.specs.InMemory.{SinkInMemory};

    ghost Value = { SinkInMemory };

    ghost view = { λ s. record {
      written = s.bytes.items;
      failing = s.schedule.failing.items;
      calls = s.schedule.calls;
      faults = s.faults;
    } };
}

impl MemSink {
    /// A sink that holds no bytes. The writes whose numbers are in `failing` will fail. Memory for
    /// what is written comes from `alloc`.
    pub fn new(alloc: Global, failing: Vec<u64>) -> MemSink
        ensures { result ≡ record { written = []; failing = failing.items; calls = 0; faults = 0 } }
    {
        MemSink {
            bytes: Vec::new(alloc),
            schedule: Schedule { failing, calls: 0 },
            faults: 0,
        }
    }

    /// What was written.
    pub fn bytes(&self) -> &[u8]
        ensures { result.now ≡ self.now.written }
    {
        &self.bytes
    }
}

impl Sink for MemSink {
    ghost use Rattle.std.specs.Prelude.{Some};

    ghost written = { λ s. Some s.written };

    ghost faults = { λ s. s.faults };

    fn write(&mut self, piece: &[u8]) -> Result<usize, Failure>
        ensures some { 0 < length piece.now → IfOk result (λ count. 0 < count) }
        ensures appended { IfOk result (λ count. Appends self.old self.new (take count piece.now)) }
        ensures unchanged { OnErr result (Some self.new.written ≡ Some self.old.written) }
        ensures counted { self.old.faults ≤ self.new.faults }
        ensures stays { Stays self.old.faults self.new.faults }

        // It fails exactly where its number is listed, and else takes the whole piece.
        ensures refused { IsErrOf result Failure.Fault ↔ Contains self.old.failing (raised self.old.calls) }
        ensures whole { IfOk result (λ count. count ≡ length piece.now) }
        ensures after_ok { OnOk result (self.new ≡ after_write self.old piece.now) }
        ensures after_fault { IsErrOf result Failure.Fault → self.new ≡ after_failed_write self.old }
        ensures after_memory { IsErrOf result Failure.Memory → self.new ≡ record self.old {
          calls = raised self.old.calls;
        } }
    {
        if self.schedule.fails() {
            self.faults = self.faults.saturating_add(1);
            return Err(Failure::Fault);
        }
        self.bytes.extend_from_slice(piece)?;
        Ok(piece.len())
    }
}
