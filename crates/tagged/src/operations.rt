// The seventeen operations on a word, with their codes and names.
ghost use Rattle.std.specs.Prelude.{◌≡◌, ◌≢◌, ◌<◌, Bool, Some, MatchOption, codes};
ghost use Rattle.tagged.specs.Operations.{class_of, altering, claims, reads, condition, class_letter, alter_letter, code_of, name_of, Decodes, ReadsName};

use crate::refusals::Refusal;
use crate::words::WordState;
use std::error::Error;
use std::fmt;

// What happens where a word has not the state that the operation needs.
#[derive(Clone, Copy, Debug, PartialEq, Eq)]
pub enum Class {
    // U: needs no state.
    Unconditional = 0,
    // W: waits for the state.
    Waiting = 1,
    // N: is discarded.
    NonFaulting = 2,
    // T: traps.
    Trapping = 3,
}

impl Class {
    // By hand, as `from_letter` is: a `From` for `u8` would give a byte a second meaning beside the class's number.
    fn letter(self) -> u8
        ensures { result ≡ class_letter self }
    {
        match self {
            Class::Unconditional => b'U',
            Class::Waiting => b'W',
            Class::NonFaulting => b'N',
            Class::Trapping => b'T',
        }
    }

    fn from_letter(letter: u8) -> Option<Class>
        ensures { MatchOption result ((k : Class) → letter ≢ class_letter k) (λ k. letter ≡ class_letter k) }
    {
        match letter {
            b'U' => Some(Class::Unconditional),
            b'W' => Some(Class::Waiting),
            b'N' => Some(Class::NonFaulting),
            b'T' => Some(Class::Trapping),
            _ => None,
        }
    }
}

// Reads and writes have a variant each, though with the same fields: what is needed, answered and left differs first by that.
#[derive(Clone, Copy, Debug, PartialEq, Eq)]
pub enum Operation {
    Read { class: Class, altering: bool },
    Write { class: Class, altering: bool },
    Clear,
}

impl Operation {
    pub fn class(self) -> Class
        ensures { result ≡ class_of self }
    {
        match self {
            Operation::Read { class, .. } | Operation::Write { class, .. } => class,
            Operation::Clear => Class::Unconditional,
        }
    }

    pub fn is_read(self) -> bool
        ensures { result ≡ reads self }
    {
        matches!(self, Operation::Read { .. })
    }

    // Whether a done operation sets the word's state: a read to empty, a write to full.
    pub fn is_altering(self) -> bool
        ensures { result ≡ altering self }
    {
        match self {
            Operation::Read { altering, .. } | Operation::Write { altering, .. } => altering,
            Operation::Clear => true,
        }
    }

    // Whether a done operation may change the word, so that it needs the only copy of its line.
    pub fn is_claim(self) -> bool
        ensures { result ≡ claims self }
    {
        match self {
            Operation::Read { altering, .. } => altering,
            Operation::Write { .. } | Operation::Clear => true,
        }
    }

    // The state that the word must have; none where any will do.
    pub fn condition(self) -> Option<WordState>
        ensures { result ≡ condition self }
    {
        let needed = match self {
            Operation::Read { .. } => WordState::Full,
            Operation::Write { .. } => WordState::Empty,
            Operation::Clear => return None,
        };
        match self.class() {
            Class::Unconditional => None,
            Class::Waiting | Class::NonFaulting | Class::Trapping => Some(needed),
        }
    }

    // A name is four bytes; a `Display` would only print it.
    pub fn name(self) -> [u8; 4]
        ensures { result ≡ name_of self }
    {
        let (class, altering, [kind, ending]) = match self {
            Operation::Read { class, altering } => (class, altering, *b"Rd"),
            Operation::Write { class, altering } => (class, altering, *b"Wr"),
            Operation::Clear => return *b"UACl",
        };
        [class.letter(), alter_letter(altering), kind, ending]
    }
}

impl From<Operation> for u8 {
    ghost from_gives = { λ operation code. code ≡ code_of operation };

    fn from(operation: Operation) -> u8 {
        let (class, altering, is_write) = match operation {
            Operation::Read { class, altering } => (class, altering, false),
            Operation::Write { class, altering } => (class, altering, true),
            Operation::Clear => return 16,
        };
        4 * class as u8 + 2 * u8::from(altering) + u8::from(is_write)
    }
}

// The operation with a code; a number above 16 is refused.
impl TryFrom<u8> for Operation {
    type Error = Refusal;

    ghost try_from_gives = { Decodes };

    fn try_from(code: u8) -> Result<Operation, Refusal> {
        if code == 16 {
            return Ok(Operation::Clear);
        }
        let class = match code / 4 {
            0 => Class::Unconditional,
            1 => Class::Waiting,
            2 => Class::NonFaulting,
            3 => Class::Trapping,
            _ => return Err(Refusal::NoSuchOperation),
        };
        let altering = code % 4 >= 2;
        Ok(if code % 2 == 0 {
            Operation::Read { class, altering }
        } else {
            Operation::Write { class, altering }
        })
    }
}

// Bytes that are no operation's name.
#[derive(Clone, Copy, Debug, PartialEq, Eq)]
pub struct UnknownName;

// By hand, since a derived one would have no contract on its text.
impl fmt::Display for UnknownName {
    ghost output = { λ _. Some (codes "no operation has this name") };

    fn fmt<W: fmt::Write>(&self, f: &mut fmt::Formatter<W>) -> fmt::Result {
        write!(f, "no operation has this name")
    }
}

impl Error for UnknownName {}

// The operation with a name; refused where the bytes are no operation's name. Two patterns of four letters, and no common
// one: the project asks for this form (docs/DECISIONS.md).
impl TryFrom<&[u8]> for Operation {
    type Error = UnknownName;

    ghost try_from_gives = { λ name r. ReadsName name.now r };

    fn try_from(name: &[u8]) -> Result<Operation, UnknownName> {
        match name {
            b"UACl" => Ok(Operation::Clear),
            [class, alter, b'R', b'd'] => Ok(Operation::Read {
                class: Class::from_letter(*class).ok_or(UnknownName)?,
                altering: alters(*alter).ok_or(UnknownName)?,
            }),
            [class, alter, b'W', b'r'] => Ok(Operation::Write {
                class: Class::from_letter(*class).ok_or(UnknownName)?,
                altering: alters(*alter).ok_or(UnknownName)?,
            }),
            _ => Err(UnknownName),
        }
    }
}

// The second letter of a name: A if the operation is altering, else N. By hand, as `alters` is: only names write a `bool` so.
fn alter_letter(altering: bool) -> u8
    ensures { result ≡ alter_letter altering }
{
    if altering { b'A' } else { b'N' }
}

fn alters(letter: u8) -> Option<bool>
    ensures { MatchOption result ((x : Bool) → letter ≢ alter_letter x) (λ x. letter ≡ alter_letter x) }
{
    match letter {
        b'A' => Some(true),
        b'N' => Some(false),
        _ => None,
    }
}
