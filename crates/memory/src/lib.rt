// Memories of tagged lines: what a memory means, the chip memory, and memories kept as pictures.
#![tactic(auto)]

ghost use Rattle.std.specs.Prelude.{◌≡◌, ◌≤◌, List, length, slice_index_or, slice_set};
ghost use Rattle.tagged.specs.Words.{blank};
ghost use Rattle.tagged.specs.declared.words.Line.{Line};

use tagged::words::Line;

pub mod chip;
pub mod lent;
pub mod pictures;

// A memory means its list of lines, at most 65,536. Reading changes nothing.
pub trait Memory {
    ghost lines: { Self → List Line };

    fn line_count(&self) -> u32
        ensures count { result ≡ length (lines self.now) }
        ensures few { result ≤ 65536 };

    // Line `n`; past the end four empty zeros.
    fn read(&self, n: u32) -> Line
        ensures { result ≡ slice_index_or (lines self.now) n blank };

    // Replaces line `n` and no other; past the end nothing changes.
    fn write(&mut self, n: u32, line: Line)
        ensures { lines self.new ≡ slice_set (lines self.old) n line };
}
