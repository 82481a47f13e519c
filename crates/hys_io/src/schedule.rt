ghost use Rattle.std.specs.Prelude.{◌≡◌, ◌↔◌, IsTrue, Contains};
ghost use Rattle.hys_io.specs.Outside.{raised};

/// The calls that are to fail, by their numbers from 1, and the number of the latest call.
#[derive(Drop)]
pub struct Schedule {
    pub failing: Vec<u64>,
    pub calls: u64,
}

impl Schedule {
    /// Counts a call, and answers whether it is to fail.
    pub fn fails(&mut self) -> bool
        ensures counted { self.new ≡ record self.old { calls = raised self.old.calls } }
        ensures listed { IsTrue result ↔ Contains self.old.failing.items (raised self.old.calls) }
    {
        self.calls = self.calls.saturating_add(1);
        self.failing.contains(&self.calls)
    }
}
