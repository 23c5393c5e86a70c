// The worked examples: the code computes each, and the contract has the result written out.
#![tactic(auto)]

ghost use Rattle.examples.specs.Worked.{Worked, WordsWorked, ProtocolsWorked};

use protocol::Protocol;
use protocol::standards::Standard;
use tagged::operations::{Class, Operation};
use tagged::rule::Served;
use tagged::words::{Word, WordState};

// What each example gives.
#[derive(Clone, Copy, Debug, PartialEq, Eq)]
pub struct Examples {
    pub words: WordExamples,
    pub protocols: ProtocolExamples,
}

// One operation on one word.
#[derive(Clone, Copy, Debug, PartialEq, Eq)]
pub struct WordExamples {
    // A word 9, full: WARd, NAWr 4, UACl, UAWr 4.
    pub taken: Served,
    pub discarded: Served,
    pub cleared: Served,
    pub overwritten: Served,
    // A word 9, empty: TARd, WNWr 4.
    pub trapped: Served,
    pub stored: Served,
}

// State codes of copies of one line: bytes, as a protocol gives them.
#[derive(Clone, Copy, Debug, PartialEq, Eq)]
pub struct ProtocolExamples {
    // MESI: core 0 reads the line first, core 1 reads it too, core 1 claims it.
    pub first: u8,
    pub first_after_read: u8,
    pub second: u8,
    pub first_after_claim: u8,
    pub claimed: u8,
    // MSI: the first read.
    pub msi_first: u8,
}

pub fn worked_examples() -> Examples
    ensures { Worked result }
{
    Examples {
        words: word_examples(),
        protocols: protocol_examples(),
    }
}

fn word_examples() -> WordExamples
    ensures { WordsWorked result }
{
    let full = Word {
        value: 9,
        state: WordState::Full,
    };
    let empty = Word {
        value: 9,
        state: WordState::Empty,
    };
    let ward = Operation::Read {
        class: Class::Waiting,
        altering: true,
    };
    let nawr = Operation::Write {
        class: Class::NonFaulting,
        altering: true,
    };
    let uawr = Operation::Write {
        class: Class::Unconditional,
        altering: true,
    };
    let tard = Operation::Read {
        class: Class::Trapping,
        altering: true,
    };
    let wnwr = Operation::Write {
        class: Class::Waiting,
        altering: false,
    };
    WordExamples {
        taken: ward.serve(full, 0),
        discarded: nawr.serve(full, 4),
        cleared: Operation::Clear.serve(full, 0),
        overwritten: uawr.serve(full, 4),
        trapped: tard.serve(empty, 0),
        stored: wnwr.serve(empty, 4),
    }
}

fn protocol_examples() -> ProtocolExamples
    ensures { ProtocolsWorked result }
{
    let mesi = Standard::Mesi;
    let first = mesi.read_fill(false);
    let first_after_read = mesi.after_read(first);
    ProtocolExamples {
        first,
        first_after_read,
        second: mesi.read_fill(true),
        first_after_claim: mesi.after_claim(first_after_read),
        claimed: mesi.own_claim(),
        msi_first: Standard::Msi.read_fill(false),
    }
}
