//! A histogram of levels with a level that moves to the wanted rank (Huang, Yang and Tang 1979). Where that is far, as
//! among many levels, it goes on by leaps over spans of counters at once: their sum is one pass of vector code, where a
//! walk has a test for each counter. The level mostly moves a few levels, which are taken without a look at how far it came.
ghost use Rattle.std.specs.Prelude.{◌≡◌, ℕ, ◌+◌, ◌<◌, ◌≤◌, ◌⊎◌, List, [], ◌∷◌, length, cond, nat_lt, IfOk};
ghost use Rattle.mw_model.specs.PlanSteps.{ranked};
ghost use Rattle.mw_rank.specs.Tallies.{count_under, Tallies, HistogramHasRoom, HistogramHolds};

use mw_model::NoMemory;
use mw_tile::pixel::Pixel;
use std::alloc::Global;

/// How many counters a leap goes over.
const SPAN: u32 = 64;

/// How many levels the level moves step by step before it leaps: it is mostly near.
const NEAR: u32 = 64;

/// How many levels it moves before it is looked how far it has come.
const FEW: u32 = 4;

/// How often each level was counted, and how many levels below the present one.
#[derive(Drop)]
pub(crate) struct Histogram {
    pub counts: Vec<u16>,
    pub level: u32,
    pub below: u32,
    pub held: u32,
}

impl Histogram {
    /// A histogram of no levels.
    pub(crate) fn empty<P: Pixel>(alloc: Global) -> Result<Histogram, NoMemory>
        ensures { IfOk result (λ h. Tallies P.top_level h []) }
    {
        let counts = vec![in alloc; 0u16; P::TOP.value() as usize + 1]?;
        Ok(Histogram {
            counts,
            level: 0,
            below: 0,
            held: 0,
        })
    }

    /// Counts a level.
    #[inline(always)]
    pub(crate) fn add(&mut self, s: u16)
        requires { (top : ℕ) × HistogramHasRoom top self.old × (s ≤ top) }
        ensures { (top : ℕ) (ns : List ℕ) → s ≤ top → Tallies top self.old ns → Tallies top self.new (s ∷ ns) }
    {
        let at = s as usize;
        self.counts[at] += 1;
        self.held += 1;
        if u32::from(s) < self.level {
            self.below += 1;
        }
    }

    /// Takes back a level that was counted.
    #[inline(always)]
    pub(crate) fn remove(&mut self, s: u16)
        requires { (top : ℕ) × HistogramHolds top self.old (s ∷ []) }
        ensures { (top : ℕ) (ns : List ℕ) → Tallies top self.old (s ∷ ns) → Tallies top self.new ns }
    {
        let at = s as usize;
        self.counts[at] -= 1;
        self.held -= 1;
        if u32::from(s) < self.level {
            self.below -= 1;
        }
    }

    /// One for a level below the present one, else none.
    #[inline(always)]
    fn one_below(&self, s: u16) -> u32
        ensures { result ≡ cond (nat_lt s self.now.level) 1 0 }
    {
        u32::from(u32::from(s) < self.level)
    }

    /// Takes back one level and counts another.
    #[inline(always)]
    pub(crate) fn exchange(&mut self, left: u16, entered: u16)
        requires { (top : ℕ) × HistogramHolds top self.old (left ∷ []) × (entered ≤ top) }
        ensures { (top : ℕ) (ns : List ℕ) → entered ≤ top → Tallies top self.old (left ∷ ns) → Tallies top self.new (entered ∷ ns) }
    {
        let less = self.one_below(left);
        let more = self.one_below(entered);
        self.counts[left as usize] -= 1;
        self.counts[entered as usize] += 1;
        self.below = self.below - less + more;
    }

    /// Forgets all levels.
    pub(crate) fn clear(&mut self)
        ensures { (top : ℕ) (ns : List ℕ) → Tallies top self.old ns → Tallies top self.new [] }
    {
        self.counts.fill(0);
        self.below = 0;
        self.held = 0;
    }

    /// How many levels were counted from that one on and below the other.
    #[inline(always)]
    fn counted(&self, from: u32, to: u32) -> u32
        requires held { (top : ℕ) × HistogramHolds top self.now [] }
        requires order { from ≤ to }
        requires within { to ≤ length self.now.counts.items }
        ensures { (top : ℕ) (ns : List ℕ) → Tallies top self.now ns → result + count_under from ns ≡ count_under to ns }
    {
        let mut sum = 0u32;
        for count in &self.counts[from as usize..to as usize] {
            sum += u32::from(*count);
        }
        sum
    }

    /// Leaps down while n levels or more are below.
    #[inline(always)]
    fn leap_down(&mut self, n: u32)
        requires { (top : ℕ) × HistogramHolds top self.old [] }
        ensures tallies { (top : ℕ) (ns : List ℕ) → Tallies top self.old ns → Tallies top self.new ns }
        ensures held { self.new.held ≡ self.old.held }
        ensures many { n ≤ self.old.below → n ≤ self.new.below }
    {
        while self.below >= n && self.level >= SPAN {
            let less = self.counted(self.level - SPAN, self.level);
            let below = self.below - less;
            if below < n {
                return;
            }
            self.below = below;
            self.level -= SPAN;
        }
    }

    /// Leaps up while fewer than n levels are not above.
    #[inline(always)]
    fn leap_up(&mut self, n: u32)
        requires few { self.old.below < n }
        requires held { (top : ℕ) × HistogramHolds top self.old [] }
        ensures tallies { (top : ℕ) (ns : List ℕ) → Tallies top self.old ns → Tallies top self.new ns }
        ensures held { self.new.held ≡ self.old.held }
        ensures few { self.new.below < n }
    {
        while ((self.level + SPAN) as usize) < self.counts.len() {
            let more = self.counted(self.level, self.level + SPAN);
            let below = self.below + more;
            if below >= n {
                return;
            }
            self.below = below;
            self.level += SPAN;
        }
    }

    /// Moves down until fewer than n levels are below, but not below `end`.
    #[inline(always)]
    fn lower(&mut self, n: u32, end: u32)
        requires held { (top : ℕ) × HistogramHolds top self.old [] }
        ensures tallies { (top : ℕ) (ns : List ℕ) → Tallies top self.old ns → Tallies top self.new ns }
        ensures held { self.new.held ≡ self.old.held }
        ensures few { (self.new.below < n) ⊎ (self.new.level ≤ end) }
        ensures enough { (top : ℕ) (ns : List ℕ) → Tallies top self.old ns → n ≤ self.old.below → n ≤ count_under (self.new.level + 1) ns }
    {
        let mut level = self.level;
        let mut below = self.below;
        while below >= n && level > end {
            level -= 1;
            below -= u32::from(self.counts[level as usize]);
        }
        self.level = level;
        self.below = below;
    }

    /// Moves up until n levels or more are not above, but not above `end`.
    #[inline(always)]
    fn raise(&mut self, n: u32, end: u32)
        requires within { n ≤ self.old.held }
        requires few { self.old.below < n }
        requires held { (top : ℕ) × HistogramHolds top self.old [] }
        ensures tallies { (top : ℕ) (ns : List ℕ) → Tallies top self.old ns → Tallies top self.new ns }
        ensures held { self.new.held ≡ self.old.held }
        ensures few { self.new.below < n }
        ensures enough { (top : ℕ) (ns : List ℕ) → Tallies top self.old ns → self.new.level < end → n ≤ count_under (self.new.level + 1) ns }
    {
        let mut level = self.level;
        let mut below = self.below;
        while level < end && below + u32::from(self.counts[level as usize]) < n {
            below += u32::from(self.counts[level as usize]);
            level += 1;
        }
        self.level = level;
        self.below = below;
    }

    /// Moves down a few levels, as long as n levels or more are below.
    #[inline(always)]
    fn step_down(&mut self, n: u32)
        requires some { 1 ≤ n }
        requires held { (top : ℕ) × HistogramHolds top self.old [] }
        ensures tallies { (top : ℕ) (ns : List ℕ) → Tallies top self.old ns → Tallies top self.new ns }
        ensures held { self.new.held ≡ self.old.held }
        ensures enough { (top : ℕ) (ns : List ℕ) → Tallies top self.old ns → n ≤ self.old.below → n ≤ count_under (self.new.level + 1) ns }
    {
        let mut level = self.level;
        let mut below = self.below;
        'levels: for _step in 0..FEW {
            if below < n {
                break;
            }
            level -= 1;
            below -= u32::from(self.counts[level as usize]);
        }
        self.level = level;
        self.below = below;
    }

    /// Moves up a few levels, as long as fewer than n levels are not above.
    #[inline(always)]
    fn step_up(&mut self, n: u32)
        requires within { n ≤ self.old.held }
        requires few { self.old.below < n }
        requires held { (top : ℕ) × HistogramHolds top self.old [] }
        ensures tallies { (top : ℕ) (ns : List ℕ) → Tallies top self.old ns → Tallies top self.new ns }
        ensures held { self.new.held ≡ self.old.held }
        ensures few { self.new.below < n }
    {
        let mut level = self.level;
        let mut below = self.below;
        'levels: for _step in 0..FEW {
            let more = below + u32::from(self.counts[level as usize]);
            if more >= n {
                break;
            }
            below = more;
            level += 1;
        }
        self.level = level;
        self.below = below;
    }

    /// Moves down until fewer than n levels are below, though they are far: step by step, and then by leaps.
    fn go_down(&mut self, n: u32)
        requires some { 1 ≤ n }
        requires many { n ≤ self.old.below }
        requires held { (top : ℕ) × HistogramHolds top self.old [] }
        ensures tallies { (top : ℕ) (ns : List ℕ) → Tallies top self.old ns → Tallies top self.new ns }
        ensures held { self.new.held ≡ self.old.held }
        ensures few { self.new.below < n }
        ensures enough { (top : ℕ) (ns : List ℕ) → Tallies top self.old ns → n ≤ count_under (self.new.level + 1) ns }
    {
        self.lower(n, self.level.saturating_sub(NEAR));
        if self.below >= n {
            self.leap_down(n);
            self.lower(n, 0);
        }
    }

    /// Moves up until n levels or more are not above, though they are far: step by step, and then by leaps.
    fn go_up(&mut self, n: u32)
        requires within { n ≤ self.old.held }
        requires few { self.old.below < n }
        requires held { (top : ℕ) × HistogramHolds top self.old [] }
        ensures tallies { (top : ℕ) (ns : List ℕ) → Tallies top self.old ns → Tallies top self.new ns }
        ensures few { self.new.below < n }
        ensures enough { (top : ℕ) (ns : List ℕ) → Tallies top self.old ns → n ≤ count_under (self.new.level + 1) ns }
    {
        let near = self.level.saturating_add(NEAR);
        self.raise(n, near);
        if self.level >= near {
            self.leap_up(n);
            self.raise(n, u32::MAX);
        }
    }

    /// Moves the level to number n of those that were counted. It mostly stands there, or a few levels away.
    #[inline(always)]
    fn go_to(&mut self, n: u32)
        requires some { 1 ≤ n }
        requires within { n ≤ self.old.held }
        requires held { (top : ℕ) × HistogramHolds top self.old [] }
        ensures tallies { (top : ℕ) (ns : List ℕ) → Tallies top self.old ns → Tallies top self.new ns }
        ensures few { self.new.below < n }
        ensures enough { (top : ℕ) (ns : List ℕ) → Tallies top self.old ns → n ≤ count_under (self.new.level + 1) ns }
    {
        if self.below >= n {
            self.step_down(n);
            if self.below >= n {
                self.go_down(n);
            }
        } else {
            self.step_up(n);
            if self.below + u32::from(self.counts[self.level as usize]) < n {
                self.go_up(n);
            }
        }
    }

    /// Of the levels in rising order number k, or the last where there are fewer; 0 where there is none.
    #[inline(always)]
    pub(crate) fn select(&mut self, k: u32) -> u16
        requires { (top : ℕ) × HistogramHolds top self.old [] }
        ensures tallies { (top : ℕ) (ns : List ℕ) → Tallies top self.old ns → Tallies top self.new ns }
        ensures level { (top : ℕ) (ns : List ℕ) → Tallies top self.old ns → result ≡ ranked k ns }
        ensures small { (top : ℕ) (ns : List ℕ) → Tallies top self.old ns → result ≤ top }
    {
        if self.held == 0 {
            return 0;
        }
        let n = self.held.min(k).max(1);
        self.go_to(n);
        self.level as u16
    }
}
