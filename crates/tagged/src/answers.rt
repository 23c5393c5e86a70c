// What a request is answered.
ghost use Rattle.std.specs.Prelude.{◌≡◌, Some};
ghost use Rattle.tagged.specs.Answers.{outcome_number, notice_number};

use crate::words::WordState;

// What became of a request, by the number that an answer carries.
#[derive(Clone, Copy, Debug, PartialEq, Eq)]
pub enum Outcome {
    Done = 0,
    Discarded = 1,
    Trap = 2,
    Waits = 3,
}

impl From<Outcome> for u8 {
    ghost from_gives = { λ outcome number. number ≡ outcome_number outcome };

    fn from(outcome: Outcome) -> u8 {
        outcome as u8
    }
}

// What the bus tells sleepers of a word whose state changed.
#[derive(Clone, Copy, Debug, PartialEq, Eq)]
pub enum Notice {
    // An empty word was filled.
    BusSWr = 1,
    // A full word was emptied.
    BusSCl = 2,
}

impl From<Notice> for u8 {
    ghost from_gives = { λ notice number. number ≡ notice_number (Some notice) };

    fn from(notice: Notice) -> u8 {
        notice as u8
    }
}

impl Notice {
    // The number that an answer carries: 0 where nothing is told.
    pub fn number(told: Option<Notice>) -> u8
        ensures { result ≡ notice_number told }
    {
        told.map_or(0, u8::from)
    }
}

// All six figures are there for every outcome, as the project asks (docs/OPERATIONS.md): unless it is done, `value` and
// `woken` are 0 and nothing is told; where it waits, `found` is empty too.
#[derive(Clone, Copy, Debug, PartialEq, Eq)]
pub struct Answer {
    // The request's number.
    pub number: u32,
    pub outcome: Outcome,
    pub value: u32,
    // The word's state as the operation found it.
    pub found: WordState,
    pub notice: Option<Notice>,
    // How many sleepers the notice woke.
    pub woken: u8,
}
