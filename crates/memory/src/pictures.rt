// A memory as bytes: the check of a picture, and reading and writing one line of it.
ghost use Rattle.std.specs.Prelude.{◌≡◌, ℕ, ◌+◌, ◌<◌, ◌≤◌, ◌++◌, length, drop, replicate, IfOk, MatchResult, OnOk, Some, slice_index};
ghost use Rattle.tagged.specs.Words.{blank};
ghost use Rattle.memory.specs.Pictures.{number_at, state_byte, state_from, picture_length, values_from, state_place, line_count, line_at, lines_at, picture, PutsNumber, PutsLine, PutsInPicture, Room, Proper, Sound, Faulty, fault_refusal, fault_place, shown_picture_fault};

use std::error::Error;
use std::{array, fmt};
use tagged::refusals::Refusal;
use tagged::words::{Line, WordState};

// The most lines that a picture has.
pub const MOST_LINES: u32 = 2048;

// Why bytes are no picture, with the place of the fault in the bytes.
#[derive(Clone, Copy, Debug, PartialEq, Eq)]
pub enum PictureFault {
    Header,
    Length { place: usize },
    State { place: usize },
}

impl PictureFault {
    pub fn place(self) -> usize
        ensures { result ≡ fault_place self }
    {
        match self {
            PictureFault::Header => 0,
            PictureFault::Length { place } | PictureFault::State { place } => place,
        }
    }
}

// By hand, since a derived one would have no contract on its text.
impl fmt::Display for PictureFault {
    ghost output = { λ fault. Some (shown_picture_fault fault) };

    fn fmt<W: fmt::Write>(&self, f: &mut fmt::Formatter<W>) -> fmt::Result {
        let place = self.place();
        let refusal = Refusal::from(*self);
        write!(f, "at byte {place}: {refusal}")
    }
}

impl Error for PictureFault {}

impl From<PictureFault> for Refusal {
    ghost from_gives = { λ fault refusal. refusal ≡ fault_refusal fault };

    fn from(fault: PictureFault) -> Refusal {
        match fault {
            PictureFault::Header => Refusal::PictureHeader,
            PictureFault::Length { .. } => Refusal::PictureLength,
            PictureFault::State { .. } => Refusal::PictureState,
        }
    }
}

// The number of lines of a picture, or the first thing that is wrong with the bytes.
pub fn check_picture(bytes: &[u8]) -> Result<u32, PictureFault>
    ensures cases { MatchResult result (λ n. Sound bytes.now × (n ≡ line_count bytes.now)) (Faulty bytes.now) }
    ensures same_bytes { IfOk result (λ n. picture (lines_at n bytes.now) ≡ bytes.now) }
{
    if bytes.len() < 4 {
        return Err(PictureFault::Header);
    }
    let count = number_at(bytes, 0);
    if count == 0 || count > MOST_LINES {
        return Err(PictureFault::Header);
    }
    let length = picture_length(count);
    if bytes.len() != length {
        return Err(PictureFault::Length {
            place: bytes.len().min(length),
        });
    }
    match (state_place(count, 0)..length).find(|place| bytes[*place] > 15) {
        Some(place) => Err(PictureFault::State { place }),
        None => Ok(count),
    }
}

// The length of a picture of `count` lines.
fn picture_length(count: u32) -> usize
    ensures { result ≡ picture_length count }
{
    4 + 17 * count as usize
}

// Where the values of line `n` begin.
fn values_from(n: u32) -> usize
    ensures { result ≡ values_from n }
{
    4 + 16 * n as usize
}

// Where the states of line `n` stand in a picture of `count` lines.
fn state_place(count: u32, n: u32) -> usize
    ensures { result ≡ state_place count n }
{
    values_from(count) + n as usize
}

// The number that four bytes write, the low one first.
fn number_at(bytes: &[u8], at: usize) -> u32
    requires { at + 4 ≤ length bytes.now }
    ensures { result ≡ number_at bytes.now at }
{
    u32::from_le_bytes(*bytes[at..].first_chunk().unwrap())
}

// The clause `bytes` is for `Front`: of a slice in a struct a proof does not know that its elements are below 256.
fn put_number(bytes: &mut [u8], at: usize, value: u32)
    requires { at + 4 ≤ length bytes.old }
    ensures puts { PutsNumber bytes.old at value bytes.new }
    ensures bytes { (k : ℕ) → slice_index bytes.new k < 256 }
{
    bytes[at..at + 4].copy_from_slice(&value.to_le_bytes());
}

// The state that a bit, 0 or 1, stands for. No `TryFrom<u8>`, since nothing is refused.
fn state_from(bit: u8) -> WordState
    ensures { result ≡ state_from bit }
{
    if bit == 1 {
        WordState::Full
    } else {
        WordState::Empty
    }
}

// Four states in a byte: a picture's own, so no `From` of a line.
fn state_byte(line: &Line) -> u8
    ensures { result ≡ state_byte line.now }
{
    let [a, b, c, d] = line.states.map(u8::from);
    a + b * 2 + c * 4 + d * 8
}

// The lines of a picture at a buffer's front. Where there are none, the buffer may be of any length.
#[derive(Drop)]
pub(crate) struct Front<'a> {
    pub(crate) bytes: &'a mut [u8],
    pub(crate) count: u32,
    ghost fits: { 0 < count → picture_length count ≤ length bytes.now },
}

impl Front<'_> {
    // Line `n`.
    pub(crate) fn line(&self, n: u32) -> Line
        requires { n < self.now.count }
        ensures { result ≡ line_at self.now.count self.now.bytes.now n }
    {
        let at = values_from(n);
        let bits = self.bytes[state_place(self.count, n)];
        Line {
            values: array::from_fn(|w| number_at(self.bytes, at + 4 * w)),
            states: [bits, bits / 2, bits / 4, bits / 8].map(|bits| state_from(bits % 2)),
        }
    }

    // Replaces line `n`, in the buffer that was lent.
    pub(crate) fn replace(&mut self, n: u32, line: Line)
        requires { n < self.old.count }
        ensures same_reference { self.new.bytes.ghost_name ≡ self.old.bytes.ghost_name }
        ensures count { self.new.count ≡ self.old.count }
        ensures puts { PutsLine self.old.count self.old.bytes.now n line self.new.bytes.now }
        ensures proper { Proper line }
        ensures picture { PutsInPicture self.old.count self.old.bytes.now n line self.new.bytes.now }
    {
        let bytes = &mut *self.bytes;
        bytes[state_place(self.count, n)] = state_byte(&line);
        let at = values_from(n);
        for (w, value) in line.values.iter().enumerate() {
            put_number(bytes, at + 4 * w, *value);
        }
    }
}

// Makes the buffer's front a picture of `count` blank lines, and gives its length. The bytes after it stay.
// Tried with a `Front` as the result, and so without a buffer and a count in `put_line` and `write_picture`: a `Result` with
// a lent slice in it leaves open what the buffer is at an `Err`.
pub fn start_picture(buffer: &mut [u8], count: u32) -> Result<usize, Refusal>
    ensures { MatchResult result (λ n. (n ≡ picture_length count) × Room count buffer.old × (buffer.new ≡ picture (replicate count blank) ++ drop n buffer.old)) (λ e. (e ≡ Refusal.NoRoomToSave) × (Room count buffer.old → ⊥) × (buffer.new ≡ buffer.old)) }
{
    let length = picture_length(count);
    if count == 0 || count > MOST_LINES || buffer.len() < length {
        return Err(Refusal::NoRoomToSave);
    }
    buffer[..length].fill(0);
    put_number(buffer, 0, count);
    Ok(length)
}

// Replaces line `n` of the picture of `count` lines at the buffer's front; where there is no such line, nothing.
pub fn put_line(buffer: &mut [u8], count: u32, n: u32, line: Line)
    ensures puts { n < count → picture_length count ≤ length buffer.old → PutsLine count buffer.old n line buffer.new × Proper line }
    ensures stays { ((n < count) × (picture_length count ≤ length buffer.old) → ⊥) → buffer.new ≡ buffer.old }
    ensures picture { PutsInPicture count buffer.old n line buffer.new }
{
    if n < count && picture_length(count) <= buffer.len() {
        let mut front = Front {
            bytes: buffer,
            count,
        };
        front.replace(n, line);
    }
}

// Writes the picture of lines at the buffer's front, and gives its length. The bytes after it stay.
pub fn write_picture(lines: &[Line], buffer: &mut [u8]) -> Result<usize, Refusal>
    ensures cases { MatchResult result (λ n. (n ≡ picture_length (length lines.now)) × (buffer.new ≡ picture lines.now ++ drop n buffer.old)) (λ e. (e ≡ Refusal.NoRoomToSave) × (Room (length lines.now) buffer.old → ⊥) × (buffer.new ≡ buffer.old)) }
    ensures reads_back { OnOk result (Sound (picture lines.now) × (lines_at (length lines.now) (picture lines.now) ≡ lines.now)) }
{
    let Ok(count) = u32::try_from(lines.len()) else {
        return Err(Refusal::NoRoomToSave);
    };
    let length = start_picture(buffer, count)?;
    for (n, line) in lines.iter().enumerate() {
        put_line(buffer, count, n as u32, *line);
    }
    Ok(length)
}
