// A memory kept as a picture in a lent buffer.
ghost use Rattle.std.specs.Prelude.{◌≡◌, ◌≤◌, slice_set};
ghost use Rattle.memory.specs.Pictures.{Sound, line_count, lines_at, PutsInPicture};

use crate::Memory;
use crate::pictures::{Front, check_picture};
use tagged::words::Line;

#[derive(Drop)]
pub struct Picture<'a> {
    front: Front<'a>,
    ghost few: { front.count ≤ 2048 },
}

impl<'a> Picture<'a> {
    // A memory over bytes: the lines of a picture, and no lines where the check refuses the bytes.
    pub fn over(bytes: &'a mut [u8]) -> Picture<'a>
        ensures same_reference { result.front.bytes.ghost_name ≡ bytes.entry.ghost_name }
        ensures bytes { result.front.bytes.now ≡ bytes.old }
        ensures sound { Sound bytes.old → result.front.count ≡ line_count bytes.old }
        ensures refused { (Sound bytes.old → ⊥) → result.front.count ≡ 0 }
    {
        let count = check_picture(bytes).unwrap_or(0);
        Picture {
            front: Front { bytes, count },
        }
    }
}

#[tactic(auto, using(crate::proofs::Places::lines_read))]
impl Memory for Picture<'_> {
    ghost lines = { λ m. lines_at m.front.count m.front.bytes.now };

    fn line_count(&self) -> u32 {
        self.front.count
    }

    fn read(&self, n: u32) -> Line {
        if n < self.front.count {
            self.front.line(n)
        } else {
            Line::blank()
        }
    }

    fn write(&mut self, n: u32, line: Line)
        ensures same_reference { self.new.front.bytes.ghost_name ≡ self.old.front.bytes.ghost_name }
        ensures lines { lines_at self.new.front.count self.new.front.bytes.now ≡ slice_set (lines_at self.old.front.count self.old.front.bytes.now) n line }
        ensures picture { PutsInPicture self.old.front.count self.old.front.bytes.now n line self.new.front.bytes.now }
    {
        if n < self.front.count {
            self.front.replace(n, line);
        }
    }
}
