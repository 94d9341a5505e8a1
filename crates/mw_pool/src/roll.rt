//! The roll: the tasks that were handed out. It exists in the proofs alone, by a book that only grows; what is there when
//! the program runs is its length. A worker has seen the roll up to its task, and so it knows in a later hold of the lock
//! that the task was handed out there.

ghost use Rattle.std.specs.Prelude.{◌≡◌, ◌+◌, ◌==◌, ◌<◌, ◌≤◌, ◌^◌, ◌++◌, ◌∷◌, [], length, IfSome, IfNone, IsTrue, MatchBool};
ghost use mathlib.Core.List.{IsPrefix};
ghost use Rattle.mw_pool.specs.Rolls.{EndsWith, StandsIn, Writes, book_head};

use logbook::{Gain, Offer, Plain, Play, Rule, Seen, Start, Word};
use mw_pool_passes::Started;
use mw_pool_passes::task::{TileDone, Work};
use std::marker::{Brand, Model, PhantomData};

/// The rule of the book: its first word is the length of the roll.
pub struct RollRule;

impl Rule<Work, u64> for RollRule {
    ghost use Rattle.std.specs.Prelude.{[]};
    ghost use base.Fml.{ftrue};
    ghost use Rattle.mw_pool.specs.Rolls.{IsBookOf};

    ghost holds = { λ cells log. IsBookOf cells log };

    ghost first = { [] };

    ghost hinted = { λ n log. Unit {0} };

    ghost shows = { λ log. [] };

    ghost keeps = { λ names log. ftrue };

    ghost moves = { λ ask before after answer. Unit {0} };
}

/// Who adds a task trades nothing for it.
pub struct Nothing;

impl Gain<Work, u64> for Nothing {
    ghost use base.Fml.{ftrue};

    ghost after = { λ names about answer. ftrue };
}

/// The step that adds a task.
pub struct Add;

impl Play<Work, u64> for Add {
    ghost use Rattle.mw_pool.specs.Rolls.{Adds};

    ghost then = { Adds };
}

/// It asks for the task.
impl Plain<Work, Work, u64> for Add {
    ghost use Rattle.std.specs.Prelude.{None};

    ghost ask = { λ work. work };

    ghost state = { λ work. None };
}

/// Which book a roll is kept in. Each call of a program picks it.
pub trait Naming {
    ghost use Rattle.logbook.specs.Pages.{Book};

    ghost book: { Book };
}

impl Naming for Brand {
    ghost book = { record { number = 0; log_name = 0; cells_name = 0 } };
}

/// The word of a new book.
type Head = Word<Work, u64, RollRule>;

/// An empty roll. Contracts see it as its book, which a call may then pick for a `Naming`.
#[derive(Drop)]
pub struct NewRoll {
    head: Head,
    seen: Seen<Work, u64, RollRule>,
}

impl Model for NewRoll {
    ghost use Rattle.std.specs.Prelude.{◌≡◌, []};
    ghost use Rattle.logbook.specs.Pages.{Book, book_coded};

    ghost Value = { Book };

    ghost coded = { book_coded };

    ghost use Rattle.mw_pool.specs.Rolls.{book_head};

    ghost view = { λ n. n.seen.book };

    ghost invariant = { λ n. (n.seen.log ≡ []) × (n.head ≡ book_head n.seen.book) };
}

impl NewRoll {
    pub fn new() -> NewRoll {
        let (seen, mut first, _second) = Seen::open(Start::alone(), 0, 0);
        NewRoll {
            head: Word::tracked(0, &mut first),
            seen,
        }
    }
}

/// A beginning of a roll, as it was seen. Contracts see it as its tasks.
#[derive(Drop)]
pub struct Front<J: Naming> {
    tasks: u64,
    seen: Seen<Work, u64, RollRule>,
    of: PhantomData<J>,
}

impl<J: Naming> Model for Front<J> {
    ghost use Rattle.std.specs.Prelude.{◌≡◌, List, length};
    ghost use Rattle.mw_pool_passes.specs.mw_step_task.WindowTasks.{WindowTask};

    ghost Value = { List WindowTask };

    ghost view = { λ f. f.seen.log };

    ghost invariant = { λ f. (f.tasks ≡ length f.seen.log) × (f.seen.book ≡ J.book) };
}

impl<J: Naming> Front<J> {
    fn len(&self) -> u64
        ensures { result ≡ length self.now }
    {
        self.tasks
    }

    /// A copy.
    fn again(&self) -> Front<J>
        ensures { result ≡ self.now }
    {
        Front {
            tasks: self.tasks,
            seen: self.seen.again(),
            of: PhantomData,
        }
    }

    /// Whether it is no longer than the other. Both are beginnings of one roll, so it then begins the other.
    fn begins(&self, other: &Front<J>) -> bool
        ensures short { length self.now ≤ length other.now → IsTrue result }
        ensures begins { IsTrue result → IsPrefix self.now other.now }
    {
        let mut both = self.seen.again();
        both.learn(&other.seen);
        self.tasks <= other.tasks
    }

    /// Adds a task to all that was seen, and says whether it did. It did not where the roll is longer.
    fn add(&mut self, head: &Head, work: &Work) -> bool
        requires head { head.now ≡ book_head J.book }
        requires room { length self.old < 2 ^ 62 }
        ensures { IsTrue result → self.new ≡ self.old ++ work.now ∷ [] }
    {
        let mut offer: Offer<Work, u64, RollRule, Nothing> = self
            .seen
            .plain::<Nothing, Work, Add>(work);
        let mut pen = self.seen.no_pen();
        let tasks = self.tasks;
        let found = head.compare_exchange::<Add, Nothing>(
            tasks,
            tasks + 1,
            &mut self.seen,
            &mut offer,
            &mut pen,
        );
        self.tasks = if found == tasks { tasks + 1 } else { found };
        found == tasks
    }
}

/// No board hands out as many tasks.
const MOST: u64 = 1 << 62;

// Results of tasks that stand in no roll are compared with what the core has.
const _: () = prove!(MOST >= 1 << 60);

/// The roll, with the word that all its fronts go by. Contracts see it as its tasks.
#[derive(Drop)]
pub(crate) struct Roll<J: Naming> {
    head: Head,
    front: Front<J>,
}

impl<J: Naming> Model for Roll<J> {
    ghost use Rattle.std.specs.Prelude.{◌≡◌, List};
    ghost use Rattle.mw_pool_passes.specs.mw_step_task.WindowTasks.{WindowTask};
    ghost use Rattle.mw_pool.specs.Rolls.{book_head};

    ghost Value = { List WindowTask };

    ghost view = { λ r. r.front };

    ghost invariant = { λ r. r.head ≡ book_head J.book };
}

impl<J: Naming> Roll<J> {
    /// The empty roll under its name.
    pub fn new(new: NewRoll) -> Roll<J>
        requires { new ≡ J.book }
        ensures { result ≡ [] }
    {
        let NewRoll { head, seen } = new;
        Roll {
            head,
            front: Front {
                tasks: 0,
                seen,
                of: PhantomData,
            },
        }
    }

    /// Adds a task, and gives what is then seen. It adds none where the roll is full, or a task was added behind the back of
    /// who holds the roll; no board does that, and no proof says so.
    fn add(&mut self, work: &Work) -> Option<Front<J>>
        ensures added { IfSome result (λ seen. (self.new ≡ self.old ++ work.now ∷ []) × (seen ≡ self.new)) }
        ensures none { IfNone result (self.new ≡ self.old) }
    {
        if self.front.len() >= MOST {
            return None;
        }
        let mut front = self.front.again();
        if !front.add(&self.head, work) {
            return None;
        }
        let seen = front.again();
        self.front = front;
        Some(seen)
    }

    /// Adds the task that was started, if one was.
    pub fn write(&mut self, started: &Started) -> Option<Front<J>>
        ensures { Writes self.old started.now result self.new }
    {
        match started {
            Started::Work(work) => self.add(work),
            _ => None,
        }
    }

    /// Whether the task of a result stands in the roll, where its worker has seen the roll up to it.
    #[tactic(auto, using(crate::proofs::Fronts::ends_stands))]
    pub fn has(&self, seen: &Option<Front<J>>, done: &TileDone) -> bool
        requires { IfSome seen.now (λ s. EndsWith s done.now) }
        ensures short { IfSome seen.now (λ s. length s ≤ length self.now → IsTrue result) }
        ensures stands { IsTrue result → StandsIn self.now done.now }
    {
        match seen {
            Some(seen) => seen.begins(&self.front),
            None => false,
        }
    }
}
