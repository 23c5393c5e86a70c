// The chip memory: lines of its own.
ghost use Rattle.std.specs.Prelude.{◌≡◌, length};

use crate::Memory;
use tagged::words::Line;

const LINES: usize = 64;

#[derive(Drop)]
pub struct Chip {
    pub lines: [Line; LINES],
    ghost sized: { length lines ≡ 64 },
}

impl Chip {
    ghost use Rattle.std.specs.Prelude.{replicate};
    ghost use Rattle.tagged.specs.Words.{blank};

    // All lines four empty zeros.
    pub fn new() -> Chip
        ensures { result.lines ≡ replicate 64 blank }
    {
        Chip {
            lines: [Line::blank(); LINES],
        }
    }
}

impl Memory for Chip {
    ghost lines = { λ m. m.lines };

    fn line_count(&self) -> u32 {
        self.lines.len() as u32
    }

    fn read(&self, n: u32) -> Line {
        self.lines.get(n as usize).copied().unwrap_or(Line::blank())
    }

    // By index, since the library says nothing of an array once `get_mut` has lent a part of it.
    fn write(&mut self, n: u32, line: Line) {
        let n = n as usize;
        if n < LINES {
            self.lines[n] = line;
        }
    }
}
