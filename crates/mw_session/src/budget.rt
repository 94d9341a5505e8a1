//! How much memory a session may take. What its core takes is reckoned from shapes, and never asked of the allocator.
//!
//! The count goes up with each request, and comes down where it would go over the bound: then all that the core keeps is counted
//! anew, without what was let go since.

ghost use Rattle.std.specs.Prelude.{◌≡◌, ◌*◌, option_map, is_some, None};
ghost use Rattle.mw_core_waves.specs.mw_core.Costs.{core_bytes, told_bytes};
ghost use Rattle.mw_session.specs.Budgets.{has_left, counted_for, kept_part, whole_part, asked_for, may_take, with_taken, with_beside};

use mw_core_waves::{Core, Crew};

const MEBIBYTE: u64 = 1 << 20;

/// A bound on what a core takes, and what it has taken.
#[derive(Clone, Copy)]
pub(crate) struct Budget {
    /// None where there is no bound.
    most: Option<u64>,
    taken: u64,
    /// What is never given back while the core lives, and the core does not count.
    beside: u64,
}

impl Budget {
    /// No bound.
    pub fn unbounded() -> Budget
        ensures { result ≡ record { most = None; taken = 0; beside = 0 } }
    {
        Budget {
            most: None,
            taken: 0,
            beside: 0,
        }
    }

    /// So many mebibytes, of which this core has taken what it is counted as; None for no bound.
    pub fn new(mebibytes: Option<u32>, core: &Core) -> Budget
        ensures { result ≡ record { most = option_map (λ n. n * MEBIBYTE) mebibytes; taken = told_bytes (core_bytes core.now); beside = 0 } }
    {
        let most = match mebibytes {
            Some(count) => Some(u64::from(count) * MEBIBYTE),
            None => None,
        };
        Budget {
            most,
            taken: core.bytes(),
            beside: 0,
        }
    }

    /// Whether there is a bound.
    pub fn is_bounded(&self) -> bool
        ensures { result ≡ is_some self.now.most }
    {
        self.most.is_some()
    }

    fn fits(&self, most: u64, more: u64) -> bool
        ensures { result ≡ has_left self.now most more }
    {
        match self.taken.checked_add(more) {
            Some(all) => all <= most,
            None => false,
        }
    }

    /// Whether so many bytes more stay within this bound. Where they would not, all that the core keeps is counted anew.
    fn fits_anew(&mut self, core: &Core, most: u64, more: u64) -> bool
        ensures said { result ≡ has_left self.new most more }
        ensures counted { self.new ≡ counted_for self.old core.now most more }
    {
        if self.fits(most, more) {
            return true;
        }
        self.taken = core.bytes().saturating_add(self.beside);
        self.fits(most, more)
    }

    /// Whether the core may keep so many bytes more. An eighth is left for what is there for a while.
    pub fn allows(&mut self, core: &Core, more: u64) -> bool
        ensures said { result ≡ may_take kept_part self.old core.now more }
        ensures counted { self.new ≡ asked_for kept_part self.old core.now more }
    {
        match self.most {
            Some(most) => self.fits_anew(core, most - most / 8, more),
            None => true,
        }
    }

    /// Whether so many bytes more may be there for a while: a payload that comes, what is made of it, or a text.
    pub fn allows_for_a_while(&mut self, core: &Core, more: u64) -> bool
        ensures said { result ≡ may_take whole_part self.old core.now more }
        ensures counted { self.new ≡ asked_for whole_part self.old core.now more }
    {
        match self.most {
            Some(most) => self.fits_anew(core, most, more),
            None => true,
        }
    }

    /// The core has taken so many bytes more, at most.
    pub fn take(&mut self, more: u64)
        ensures { self.new ≡ with_taken self.old more }
    {
        match self.most {
            Some(_) => self.taken = self.taken.saturating_add(more),
            None => {}
        }
    }

    /// So many bytes were taken that the core does not count, for as long as it lives.
    pub fn take_beside(&mut self, more: u64)
        ensures { self.new ≡ with_beside self.old more }
    {
        match self.most {
            Some(_) => {
                self.taken = self.taken.saturating_add(more);
                self.beside = self.beside.saturating_add(more);
            }
            None => {}
        }
    }
}

/// Who runs the work of a session, and how much memory it may take.
#[derive(Drop)]
pub(crate) struct Means<'r, T> {
    pub crew: Crew<'r, T>,
    pub budget: Budget,
}
