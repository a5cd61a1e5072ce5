ghost use Rattle.std.specs.Prelude.{◌≡◌, ◌↔◌, IsTrue, Contains};
ghost use Rattle.outside.specs.Counting.{next_number};

use basics::Seq;

/// The calls of a form in memory that are to fail, by their numbers from 0, and the number of the next
/// call. That number stops after the last one that a list can name.
#[derive(Drop)]
pub(crate) struct Failures {
    failing: Seq<u64>,
    next: u128,
}

impl Failures {
    /// The calls with these numbers are to fail; none was made yet.
    pub(crate) fn new(failing: Seq<u64>) -> Failures
        ensures { result ≡ record { failing = failing; next = 0 } }
    {
        Failures { failing, next: 0 }
    }

    /// Counts the next call, and answers whether it is to fail.
    pub(crate) fn next_fails(&mut self) -> bool
        ensures fails { IsTrue result ↔ Contains self.old.failing self.old.next }
        ensures next { self.new ≡ record self.old { next = next_number self.old.next } }
    {
        let call = self.next;
        self.next = call.saturating_add(1).min(1 << 64);
        self.failing
            .as_slice()
            .iter()
            .any(|number| u128::from(*number) == call)
    }
}
