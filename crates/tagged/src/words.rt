// Tagged words, and the line of four that moves between memory, bus and caches.
ghost use Rattle.std.specs.Prelude.{◌≡◌, ℕ, ◌/◌, ◌%◌, ◌≢◌};
ghost use Rattle.tagged.specs.Words.{state_number, word_at, with_word, blank};

// Whether a word holds something to take. A read that needs a full word waits on an empty one.
#[derive(Clone, Copy, Debug, PartialEq, Eq)]
pub enum WordState {
    Empty = 0,
    Full = 1,
}

impl From<WordState> for u8 {
    ghost from_gives = { λ state number. number ≡ state_number state };

    fn from(state: WordState) -> u8 {
        state as u8
    }
}

#[derive(Clone, Copy, Debug, PartialEq, Eq)]
pub struct Word {
    pub value: u32,
    pub state: WordState,
}

// Word w of a memory stands in line w / 4 at place w % 4.
pub const WORDS_PER_LINE: u32 = 4;

// Values and states in an array each, copied by value between memory, bus and frames: the project asks for this form
// (docs/DECISIONS.md).
#[derive(Clone, Copy, Debug, PartialEq, Eq)]
pub struct Line {
    pub values: [u32; 4],
    pub states: [WordState; 4],
}

// The number of the line that has word `word`.
pub fn line_of(word: u32) -> u32
    ensures { result ≡ word / 4 }
{
    word / WORDS_PER_LINE
}

// The place of word `word` in its line.
pub fn place_of(word: u32) -> usize
    ensures { result ≡ word % 4 }
{
    (word % WORDS_PER_LINE) as usize
}

impl Line {
    // Four empty zeros.
    pub fn blank() -> Line
        ensures { result ≡ blank }
    {
        Line {
            values: [0; 4],
            states: [WordState::Empty; 4],
        }
    }

    // The word at the place of word `word`.
    pub fn word(&self, word: u32) -> Word
        ensures { result ≡ word_at self.now word }
    {
        let place = place_of(word);
        Word {
            value: self.values[place],
            state: self.states[place],
        }
    }

    // Puts `new` at the place of word `word`; the other three words stay.
    pub fn replace(&mut self, word: u32, new: Word)
        ensures after { self.new ≡ with_word self.old word new }
        ensures here { word_at self.new word ≡ new }
        ensures others { (k : ℕ) → (k % 4 ≢ word % 4) → word_at self.new k ≡ word_at self.old k }
    {
        let place = place_of(word);
        self.values[place] = new.value;
        self.states[place] = new.state;
    }
}
