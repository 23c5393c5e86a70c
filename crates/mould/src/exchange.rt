// The hand-over through bare tagged words, one face at a time.
ghost use Rattle.std.specs.Prelude.{◌≡◌, ℕ, ◌+◌, ◌*◌, ◌^◌, ◌≤◌, length, IfOk, Err, MatchResult, Some};
ghost use Rattle.tagged.specs.Words.{blank, word_at, state_number};
ghost use Rattle.mould.specs.Handed.{all_handed_from, KeepsItsTolerance, shown_fault};
ghost use Rattle.mould.specs.declared.exchange.Fault.TheVariants.{NoMemory, Rejected};

use crate::plan::Face;
use std::alloc::{AllocError, AllocFailed, Global};
use std::error::Error;
use std::fmt;
use tagged::operations::{Class, Operation};
use tagged::refusals::Refusal;
use tagged::words::Line;

// A write that needs an empty word and leaves it full.
const FILL: Operation = Operation::Write {
    class: Class::Waiting,
    altering: true,
};

// A read that needs a full word and leaves it empty.
const TAKE: Operation = Operation::Read {
    class: Class::Waiting,
    altering: true,
};

// A face as the probe has it, with the requests that brought it there.
#[derive(Clone, Copy, Debug, PartialEq, Eq)]
pub struct Handed {
    pub face: Face,
    // The number of the request that filled the word, and of the one that took it.
    pub filled: u32,
    pub taken: u32,
}

// Four words that planner and probe share, all empty between two hand-overs, and the number of the next request.
#[derive(Drop)]
pub struct Words {
    pub line: Line,
    pub next: u32,
    ghost idle: { (k : ℕ) → state_number (word_at line k).state ≡ 0 },
}

impl Words {
    ghost use Rattle.mould.specs.Words.{HandsOver, RunsOut};

    // Four empty words, and the number of the first request.
    pub fn starting_at(number: u32) -> Words
        ensures { (result.next ≡ number) × (result.line ≡ blank) }
    {
        Words {
            line: Line::blank(),
            next: number,
        }
    }

    // The planner fills a word with the face's tolerance, and the probe takes it.
    pub fn hand_over(&mut self, face: Face) -> Result<Handed, Refusal>
        ensures { MatchResult result (λ h. HandsOver self.old face h self.new) (λ e. RunsOut self.old e self.new) }
    {
        let filled = self.next;
        let next = filled.checked_add(2).ok_or(Refusal::NumbersUsedUp)?;
        let word = self.line.word(face.number);
        let fill = FILL.serve(word, face.tolerance);
        let take = TAKE.serve(fill.word, 0);
        self.line.replace(face.number, take.word);
        self.next = next;
        Ok(Handed {
            face: Face {
                tolerance: take.value,
                ..face
            },
            filled,
            taken: filled + 1,
        })
    }
}

// Why a hand-over ended early.
#[derive(Debug, PartialEq, Eq, Drop)]
pub enum Fault {
    NoMemory,
    Rejected(Refusal),
}

// By hand, since a derived one would have no contract on its text.
impl fmt::Display for Fault {
    ghost output = { λ fault. Some (shown_fault fault) };

    fn fmt<W: fmt::Write>(&self, f: &mut fmt::Formatter<W>) -> fmt::Result {
        match self {
            Fault::NoMemory => write!(f, "there is not enough memory"),
            Fault::Rejected(refusal) => write!(f, "a request was {refusal}"),
        }
    }
}

impl Error for Fault {}

// By `?` a `collect` gives an `AllocError` and a `push` an `AllocFailed`. No one impl is plainer: a generic one overlaps with
// `From<Refusal>`.
impl From<AllocError> for Fault {
    ghost from_gives = { λ _ r. r ≡ NoMemory };

    fn from(_: AllocError) -> Fault {
        Fault::NoMemory
    }
}

impl<T: Drop> From<AllocFailed<T>> for Fault {
    ghost from_gives = { λ _ r. r ≡ NoMemory };

    fn from(_: AllocFailed<T>) -> Fault {
        Fault::NoMemory
    }
}

impl From<Refusal> for Fault {
    ghost from_gives = { λ refusal r. r ≡ Rejected refusal };

    fn from(refusal: Refusal) -> Fault {
        Fault::Rejected(refusal)
    }
}

// Hands the faces over in their order, and gives what the probe then has.
#[tactic(auto, using(crate::proofs::Handing::handed_more))]
pub fn carry_out(heap: Global, faces: &[Face]) -> Result<Vec<Handed>, Fault>
    ensures handed { IfOk result (λ v. v.items ≡ all_handed_from 1 faces.now) }
    ensures keeps { IfOk result (λ v. KeepsItsTolerance faces.now v.items) }
    ensures refused { (e : Refusal) → result ≡ Err (Rejected e) → (e ≡ Refusal.NumbersUsedUp) × (2 ^ 32 ≤ 2 * length faces.now + 1) }
{
    let mut words = Words::starting_at(1);
    let mut all = Vec::new(heap);
    // Tried as a chain: of a closure that changes the words its contract says too little.
    for face in faces {
        all.push(words.hand_over(*face)?)?;
    }
    Ok(all)
}
