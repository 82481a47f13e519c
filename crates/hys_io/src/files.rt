ghost use Rattle.std.specs.Prelude.{◌≡◌, ◌≤◌, ℕ, Option, length, IfOk, OnOk, IsErrOf};
ghost use Rattle.hys_io.specs.Outside.{Named, Rose, Stays, IfRead, IfPut, IfTorn};

use crate::Failure;

/// Files by name. A call that is refused by the outside is counted, reads and puts apart.
pub trait Files {
    /// The bytes under each name, where the implementation tells them.
    ghost held: { Self → Option Named };

    /// How many reads have failed. The number rises with each fault of a read and nothing else, and
    /// `2^64 - 1` is its end.
    ghost read_faults: { Self → ℕ };

    /// How many puts have failed. The number rises with each fault of a put and nothing else, and
    /// `2^64 - 1` is its end.
    ghost put_faults: { Self → ℕ };

    /// Reads the file from the byte `at` into the front of `into`, and answers how many bytes it
    /// read: 0 exactly where `into` is empty or the file has no byte at `at`. What `into` holds
    /// behind them is free.
    ///
    /// # Errors
    ///
    /// `Fault` where the file can't be read, as where the name isn't there. `Memory` for want of
    /// memory. Neither changes a file.
    fn read_at(&mut self, name: &str, at: u64, into: &mut [u8]) -> Result<usize, Failure>
        ensures bound { IfOk result (λ count. count ≤ length into.new) }
        ensures found { IfOk result (λ count. IfRead (held self.old) name.now at count into.new) }
        ensures same { held self.new ≡ held self.old }
        ensures cause { IsErrOf result Failure.Fault
            → Rose (read_faults self.old) (read_faults self.new) }
        ensures counted { read_faults self.old ≤ read_faults self.new }
        ensures stays { Stays (read_faults self.old) (read_faults self.new) }
        ensures calm { OnOk result (read_faults self.new ≡ read_faults self.old) }
        ensures calm_memory { IsErrOf result Failure.Memory
            → read_faults self.new ≡ read_faults self.old }
        ensures puts { put_faults self.new ≡ put_faults self.old };

    /// Puts the bytes under the name, in place of what it held. Other names never change.
    ///
    /// # Errors
    ///
    /// `Fault` where the outside refuses: the name then holds what it held, or a prefix of `bytes`.
    /// `Memory` for want of memory: nothing has changed.
    fn put(&mut self, name: &str, bytes: &[u8]) -> Result<(), Failure>
        ensures done { OnOk result (IfPut (held self.old) (held self.new) name.now bytes.now) }
        ensures torn { IsErrOf result Failure.Fault
            → IfTorn (held self.old) (held self.new) name.now bytes.now }
        ensures unchanged { IsErrOf result Failure.Memory → held self.new ≡ held self.old }
        ensures cause { IsErrOf result Failure.Fault
            → Rose (put_faults self.old) (put_faults self.new) }
        ensures counted { put_faults self.old ≤ put_faults self.new }
        ensures stays { Stays (put_faults self.old) (put_faults self.new) }
        ensures calm { OnOk result (put_faults self.new ≡ put_faults self.old) }
        ensures calm_memory { IsErrOf result Failure.Memory
            → put_faults self.new ≡ put_faults self.old }
        ensures reads { read_faults self.new ≡ read_faults self.old };
}
