// The whole operation table, written out by hand, against the rule for one word.
use std::process::Abort;
use std::test::Fail;
use tagged::answers::Notice;
use tagged::operations::Operation;
use tagged::words::{Word, WordState};

// By column: outcome (0 done, 1 discarded, 2 trap, 3 waits), value, state found (0 empty, 1 full),
// notice (0 none, 1 BusSWr, 2 BusSCl), and value and state of the word afterwards. Written in numbers, as answers carry
// them, so that the numbers are tested too.
type Row = ([u8; 4], [u32; 6]);

// In the order of the codes. The word holds 9, and the operation brings 4.
const ON_A_FULL_WORD: [Row; 17] = [
    (*b"UNRd", [0, 9, 1, 0, 9, 1]),
    (*b"UNWr", [0, 0, 1, 0, 4, 1]),
    (*b"UARd", [0, 9, 1, 2, 9, 0]),
    (*b"UAWr", [0, 0, 1, 0, 4, 1]),
    (*b"WNRd", [0, 9, 1, 0, 9, 1]),
    (*b"WNWr", [3, 0, 0, 0, 9, 1]),
    (*b"WARd", [0, 9, 1, 2, 9, 0]),
    (*b"WAWr", [3, 0, 0, 0, 9, 1]),
    (*b"NNRd", [0, 9, 1, 0, 9, 1]),
    (*b"NNWr", [1, 0, 1, 0, 9, 1]),
    (*b"NARd", [0, 9, 1, 2, 9, 0]),
    (*b"NAWr", [1, 0, 1, 0, 9, 1]),
    (*b"TNRd", [0, 9, 1, 0, 9, 1]),
    (*b"TNWr", [2, 0, 1, 0, 9, 1]),
    (*b"TARd", [0, 9, 1, 2, 9, 0]),
    (*b"TAWr", [2, 0, 1, 0, 9, 1]),
    (*b"UACl", [0, 0, 1, 2, 9, 0]),
];

const ON_AN_EMPTY_WORD: [Row; 17] = [
    (*b"UNRd", [0, 9, 0, 0, 9, 0]),
    (*b"UNWr", [0, 0, 0, 0, 4, 0]),
    (*b"UARd", [0, 9, 0, 0, 9, 0]),
    (*b"UAWr", [0, 0, 0, 1, 4, 1]),
    (*b"WNRd", [3, 0, 0, 0, 9, 0]),
    (*b"WNWr", [0, 0, 0, 0, 4, 0]),
    (*b"WARd", [3, 0, 0, 0, 9, 0]),
    (*b"WAWr", [0, 0, 0, 1, 4, 1]),
    (*b"NNRd", [1, 0, 0, 0, 9, 0]),
    (*b"NNWr", [0, 0, 0, 0, 4, 0]),
    (*b"NARd", [1, 0, 0, 0, 9, 0]),
    (*b"NAWr", [0, 0, 0, 1, 4, 1]),
    (*b"TNRd", [2, 0, 0, 0, 9, 0]),
    (*b"TNWr", [0, 0, 0, 0, 4, 0]),
    (*b"TARd", [2, 0, 0, 0, 9, 0]),
    (*b"TAWr", [0, 0, 0, 1, 4, 1]),
    (*b"UACl", [0, 0, 0, 0, 9, 0]),
];

// What the rule gives, in the columns of a row.
fn columns(operation: Operation, state: WordState) -> [u32; 6] {
    let served = operation.serve(Word { value: 9, state }, 4);
    [
        u32::from(u8::from(served.outcome)),
        served.value,
        u32::from(u8::from(served.found)),
        u32::from(Notice::number(served.notice)),
        served.word.value,
        u32::from(u8::from(served.word.state)),
    ]
}

fn compare(rt: &impl Abort, rows: &[Row], state: WordState) -> Result<(), Fail> {
    assert_eq!(rt; rows.len(), 17);
    for (code, (name, expected)) in (0..).zip(rows) {
        let operation = Operation::try_from(name.as_slice())?;
        assert_eq!(rt; columns(operation, state), *expected);
        assert_eq!(rt; operation.name(), *name);
        assert_eq!(rt; u8::from(operation), code);
    }
    Ok(())
}

// A test for each table, so that a failure names it.
#[test]
fn full_word_follows_the_table(rt: HostRuntime) -> Result<(), Fail> {
    compare(&rt, &ON_A_FULL_WORD, WordState::Full)
}

#[test]
fn empty_word_follows_the_table(rt: HostRuntime) -> Result<(), Fail> {
    compare(&rt, &ON_AN_EMPTY_WORD, WordState::Empty)
}
