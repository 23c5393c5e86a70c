// Why a call is refused. Of two reasons the one with the smaller number is returned.
ghost use Rattle.std.specs.Prelude.{◌≡◌, Some};
ghost use Rattle.tagged.specs.Refusals.{refusal_number, shown_refusal};

use std::error::Error;
use std::fmt;

#[derive(Clone, Copy, Debug, PartialEq, Eq)]
pub enum Refusal {
    // The core is not on the board.
    NoSuchCore = 1,
    // No operation has the code.
    NoSuchOperation = 2,
    // The board does not serve the word.
    WordNotServed = 3,
    // Every request number has been given.
    NumbersUsedUp = 4,
    // The request would wait, and its core's list has no place.
    ListFull = 5,
    // The bus is given.
    BusGiven = 6,
    // The core has no ready request.
    NothingReady = 7,
    // The slip is not of the bus's present tenure.
    NotThisTenure = 8,
    // No request waits under the number.
    NotWaiting = 9,
    // The request has the bus.
    HasTheBus = 10,
    // The core does not keep the line.
    LineNotKept = 11,
    // The bus is given for the line.
    BusGivenForLine = 12,
    // A board has one to eight cores.
    CoresUnfit = 13,
    // The first request number is 0.
    FirstNumberZero = 14,
    // The picture has no header, or its number of lines is unfit.
    PictureHeader = 15,
    // The picture's length is not that of its number of lines.
    PictureLength = 16,
    // A state byte of the picture has one of its upper four bits set.
    PictureState = 17,
    // There is nothing to save, or the buffer is too short.
    NoRoomToSave = 18,
}

impl From<Refusal> for u8 {
    ghost from_gives = { λ refusal number. number ≡ refusal_number refusal };

    fn from(refusal: Refusal) -> u8 {
        refusal as u8
    }
}

// By hand, since a derived one would have no contract on its text.
impl fmt::Display for Refusal {
    ghost output = { λ refusal. Some (shown_refusal refusal) };

    fn fmt<W: fmt::Write>(&self, f: &mut fmt::Formatter<W>) -> fmt::Result {
        write!(f, "refused with number {}", u8::from(*self))
    }
}

impl Error for Refusal {}
