//! The list of the steps that were handed out for publication. It exists in proofs alone: what is stored
//! is its length.
ghost use Rattle.std.specs.Prelude.{◌≡◌, ◌+◌, ◌<◌, ◌≤◌, ◌^◌, ◌++◌, ◌∷◌, ◌⊎◌, [], length, IfSome, MatchBool};
ghost use Rattle.published.specs.Known.{start_of, next_of, Begins, BeginsLonger};

use logbook::{Gain, Offer, Plain, Play, Rule, Seen, Start, Word};
use shown::Step;
use std::hash::RandomState;
use std::marker::{Brand, Model};

/// The most steps of one book.
const MOST: u64 = 1 << 62;

/// The rule of the book.
pub struct Grows;

impl Rule<Step, u64> for Grows {
    ghost use Rattle.std.specs.Prelude.{[]};
    ghost use base.Fml.{ftrue};
    ghost use Rattle.published.specs.Book.{CountsLog};

    ghost holds = { λ cells log. CountsLog cells log };

    ghost first = { [] };

    ghost hinted = { λ n log. Unit {0} };

    ghost shows = { λ log. [] };

    ghost keeps = { λ names log. ftrue };

    ghost moves = { λ ask before after answer. Unit {0} };
}

/// Callers trade nothing.
pub struct GainsNothing;

impl Gain<Step, u64> for GainsNothing {
    ghost use base.Fml.{ftrue};

    ghost after = { λ names about answer. ftrue };
}

/// The move that adds a step.
pub struct Add;

impl Play<Step, u64> for Add {
    ghost use Rattle.published.specs.Book.{Adds};

    ghost then = { Adds };
}

/// What the move asks for: the step.
impl Plain<Step, Step, u64> for Add {
    ghost use Rattle.std.specs.Prelude.{None};

    ghost ask = { λ step. step };

    ghost state = { λ step. None };
}

/// Which book it is. The call that opens a keeper picks it.
pub trait Naming {
    ghost use Rattle.logbook.specs.Pages.{Book};

    ghost book: { Book };
}

impl Naming for Brand {
    ghost use Rattle.published.specs.Known.{no_book};

    ghost book = { no_book };
}

/// The word that only the desk moves: the length of the list. Contracts see it as the book's name.
#[derive(Drop)]
pub struct Book {
    head: Word<Step, u64, Grows>,
}

impl Model for Book {
    ghost use Rattle.std.specs.Prelude.{◌≡◌};
    ghost use Rattle.logbook.specs.Pages.{Book as Name};
    ghost use Rattle.published.specs.Book.{head_of};

    ghost Value = { Name };

    ghost view = { λ b. b.head.book };

    ghost invariant = { λ b. b.head ≡ head_of b.head.book };
}

/// A book with an empty list, the prefix that has seen nothing, and the key under which names are hashed where the book's steps
/// are shown.
#[derive(Drop)]
pub struct Opened {
    pub book: Book,
    pub prefix: StepPrefix,
    pub keys: RandomState,
    pub ghost empty: { prefix ≡ start_of book },
}

impl Opened {
    /// A new book, and the prefix that has seen nothing of it. Names are hashed under this key.
    pub fn new(keys: RandomState) -> Opened
        ensures { result.prefix ≡ start_of result.book }
    {
        let (book, prefix) = open();
        Opened { book, prefix, keys }
    }
}

fn open() -> (Book, StepPrefix)
    ensures { result.1 ≡ start_of result.0 }
{
    let (seen, mut first, _second) = Seen::open(Start::alone(), 0, 0);
    let head = Word::tracked(0, &mut first);
    (Book { head }, StepPrefix { count: 0, seen })
}

/// A beginning of a book's list. Contracts see it as the book's name and the steps. It can be copied, sent
/// and shared, and takes eight bytes.
#[derive(Drop)]
pub struct StepPrefix {
    count: u64,
    seen: Seen<Step, u64, Grows>,
}

impl Model for StepPrefix {
    ghost use Rattle.std.specs.Prelude.{◌≡◌, ◌≤◌, ◌^◌, List, length};
    ghost use Rattle.published.specs.Known.{Known};
    ghost use Rattle.published.specs.inside.Codes.{coded_known};

    ghost Value = { Known };

    ghost coded = { coded_known };

    ghost view = { λ f. record { book = f.seen.book; steps = f.seen.log } };

    ghost invariant = { λ f. (f.count ≡ length f.seen.log) × (length f.seen.log ≤ 2 ^ 62) };
}

impl StepPrefix {
    /// How many steps it has.
    pub fn len(&self) -> u64
        ensures length { result ≡ length self.now.steps }
        ensures bound { length self.now.steps ≤ 2 ^ 62 }
    {
        self.count
    }

    /// A copy.
    pub fn again(&self) -> StepPrefix
        ensures { result ≡ self.now }
    {
        StepPrefix {
            count: self.count,
            seen: self.seen.again(),
        }
    }

    /// Whether the other has as many steps or more. Then it begins with these.
    pub fn begins(&self, other: &StepPrefix) -> bool
        requires { other.now.book ≡ self.now.book }
        ensures { MatchBool result (Begins self.now other.now) (BeginsLonger other.now self.now) }
    {
        let mut both = self.seen.again();
        both.learn(&other.seen);
        self.count <= other.count
    }

    /// The longer of the two, which both begin.
    pub fn longer(&self, other: &StepPrefix) -> StepPrefix
        requires { other.now.book ≡ self.now.book }
        ensures this { Begins self.now result }
        ensures that { Begins other.now result }
        ensures one { (result ≡ self.now) ⊎ (result ≡ other.now) }
    {
        if self.begins(other) {
            other.again()
        } else {
            self.again()
        }
    }

    /// The list with one step more, where nobody else has added to it and there is room.
    pub fn add_step(&self, book: &Book, step: &Step) -> Option<StepPrefix>
        requires { self.now.book ≡ book.now }
        ensures { IfSome result (λ p. p ≡ next_of self.now step.now) }
    {
        if self.count >= MOST {
            return None;
        }
        let mut seen = self.seen.again();
        let mut offer: Offer<Step, u64, Grows, GainsNothing> = seen.plain::<
            GainsNothing,
            Step,
            Add,
        >(step);
        let mut pen = seen.no_pen();
        let found = book.head.compare_exchange::<Add, GainsNothing>(
            self.count,
            self.count + 1,
            &mut seen,
            &mut offer,
            &mut pen,
        );
        if found != self.count {
            return None;
        }
        Some(StepPrefix {
            count: self.count + 1,
            seen,
        })
    }
}
