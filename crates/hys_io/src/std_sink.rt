ghost use Rattle.std.specs.Prelude.{◌≡◌, ◌<◌, ◌≤◌, if◌then◌else◌, length, is_ok, IfOk, IfErr};
ghost use Rattle.hys_io.specs.Outside.{Stays, raised};

use crate::{Failure, Sink};
use std::marker::Model;

/// The standard output. What was written isn't told.
#[derive(Drop)]
pub struct StdSink<P: Print + Drop> {
    system: P,
    faults: u64,
}

impl<P: Print + Drop> Model for StdSink<P> {
    ghost use Rattle.std.specs.Prelude.{ℕ};

    ghost Value = { ℕ };

    ghost view = { λ s. s.faults };
}

impl<P: Print + Drop> StdSink<P> {
    /// The standard output that this runtime reaches, with no fault counted yet.
    pub fn new(system: P) -> StdSink<P>
        ensures { result ≡ 0 }
    {
        StdSink { system, faults: 0 }
    }
}

impl<P: Print + Drop> Sink for StdSink<P> {
    ghost use Rattle.std.specs.Prelude.{None};

    ghost written = { λ s. None };

    ghost faults = { λ s. s };

    fn write(&mut self, piece: &[u8]) -> Result<usize, Failure>
        ensures bound { IfOk result (λ count. count ≤ length piece.now) }
        ensures some { 0 < length piece.now → IfOk result (λ count. 0 < count) }
        ensures counted { self.old ≤ self.new }
        ensures stays { Stays self.old self.new }

        // It counts exactly its faults, and has no need of memory.
        ensures fault { IfErr result (λ e. e ≡ Failure.Fault) }
        ensures after { self.new ≡ (if is_ok result then self.old else raised self.old) }
    {
        match self.system.write_some(piece) {
            Ok(count) if count > 0 || piece.is_empty() => Ok(count),
            _ => {
                self.faults = self.faults.saturating_add(1);
                Err(Failure::Fault)
            }
        }
    }
}
