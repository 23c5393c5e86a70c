// The rule for one word: what an operation answers, and what it leaves.
ghost use Rattle.std.specs.Prelude.{◌≡◌, ℕ, false};
ghost use Rattle.tagged.specs.Operations.{claims};
ghost use Rattle.tagged.specs.Rule.{met, notice_of, done_by, unmet_by, rule, TellsTheChange, SameAnswer};

use crate::answers::{Notice, Outcome};
use crate::operations::{Class, Operation};
use crate::words::{Word, WordState};

// What an operation on a word answers, and the word afterwards. The figures stand beside the outcome, as in an answer.
#[derive(Clone, Copy, Debug, PartialEq, Eq)]
pub struct Served {
    pub outcome: Outcome,
    pub value: u32,
    pub found: WordState,
    pub notice: Option<Notice>,
    pub word: Word,
}

impl Operation {
    // Whether a word in this state lets the operation be done.
    pub fn is_met_by(self, state: WordState) -> bool
        ensures { result ≡ met self state }
    {
        self.condition().is_none_or(|needed| needed == state)
    }

    // Serves the operation at `word`; `value` is what a write stores.
    pub fn serve(self, word: Word, value: u32) -> Served
        ensures table { result ≡ rule self word value }
        ensures non_claim_leaves_the_word { claims self ≡ false → result.word ≡ word }
        ensures unmet_leaves_the_word { met self word.state ≡ false → result.word ≡ word }
        ensures notice_tells_the_change { TellsTheChange word.state result.word.state result.notice }
        ensures answer_ignores_the_value { (other : ℕ) → SameAnswer result (rule self word other) }
    {
        if self.is_met_by(word.state) {
            self.done(word, value)
        } else {
            self.unmet(word)
        }
    }

    fn done(self, word: Word, value: u32) -> Served
        ensures { result ≡ done_by self word value }
    {
        // State and value are chosen apart: a choice between whole words doubles the time of a hand-over.
        let state = match self {
            Operation::Read { altering: true, .. } | Operation::Clear => WordState::Empty,
            Operation::Write { altering: true, .. } => WordState::Full,
            Operation::Read { .. } | Operation::Write { .. } => word.state,
        };
        let (answered, left) = match self {
            Operation::Read { .. } => (word.value, word.value),
            Operation::Write { .. } => (0, value),
            Operation::Clear => (0, word.value),
        };
        Served {
            outcome: Outcome::Done,
            value: answered,
            found: word.state,
            notice: notice_of(word.state, state),
            word: Word { value: left, state },
        }
    }

    fn unmet(self, word: Word) -> Served
        ensures { result ≡ unmet_by self word }
    {
        let (outcome, found) = match self.class() {
            // Not reached by `serve`: class U is always met.
            Class::Unconditional => (Outcome::Done, word.state),
            Class::Waiting => (Outcome::Waits, WordState::Empty),
            Class::NonFaulting => (Outcome::Discarded, word.state),
            Class::Trapping => (Outcome::Trap, word.state),
        };
        Served {
            outcome,
            value: 0,
            found,
            notice: None,
            word,
        }
    }
}

// What is told of a word that goes from one state to another.
fn notice_of(before: WordState, after: WordState) -> Option<Notice>
    ensures { result ≡ notice_of before after }
{
    match (before, after) {
        (WordState::Empty, WordState::Full) => Some(Notice::BusSWr),
        (WordState::Full, WordState::Empty) => Some(Notice::BusSCl),
        _ => None,
    }
}
