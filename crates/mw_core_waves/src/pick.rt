//! The order of the work, and how long it is wanted.

/// Which ready task is taken next, and whether any is wanted still.
pub trait Pick {
    ghost use Rattle.std.specs.Prelude.{◌≡◌, ◌<◌, ℕ};

    /// The place that it gives next among so many.
    ghost place: { Self → ℕ → ℕ };

    /// A place among so many ready tasks, counted from 0 and round again where there are fewer. Any answer is right.
    fn pick(&mut self, count: u64) -> u64
        requires { 0 < count }
        ensures { result ≡ place self.old count };

    /// Whether results are wanted still. Where they are not, tasks are refused in the place of being run, as by want of
    /// memory. It is asked before each task that the one who has the core takes up. Any answer is right.
    fn is_wanted(&mut self) -> bool;
}

/// Wants all results.
#[derive(Drop)]
pub(crate) struct All;

impl Pick for All {
    ghost place = { λ s n. 0 };

    fn pick(&mut self, _count: u64) -> u64 {
        0
    }

    fn is_wanted(&mut self) -> bool {
        true
    }
}
