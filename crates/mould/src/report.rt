// What the shop reads of a hand-over.
ghost use Rattle.std.specs.Prelude.{◌≡◌, ◌*◌, length, Some, Decides};
ghost use Rattle.mould.specs.Handed.{KeepsItsTolerance, shown_handed, shown_kept, shown_totals};

use crate::exchange::Handed;
use crate::plan::Face;
use std::fmt;

// By hand, as that of the totals is, since a derived one would have no contract on its text.
impl fmt::Display for Handed {
    ghost output = { λ h. Some (shown_handed h) };

    fn fmt<W: fmt::Write>(&self, f: &mut fmt::Formatter<W>) -> fmt::Result {
        write!(
            f,
            "face {}: tolerance {}, filled by request {}, taken by request {}",
            self.face.number, self.face.tolerance, self.filled, self.taken
        )
    }
}

// Whether the probe has the planned faces, each with its own tolerance.
pub fn each_kept(faces: &[Face], handed: &[Handed]) -> bool
    ensures { Decides result (KeepsItsTolerance faces.now handed.now) }
{
    handed.len() == faces.len()
        && handed
            .iter()
            .zip(faces)
            .all(|(one, face)| one.face == *face)
}

// The closing line.
#[derive(Clone, Copy, Debug, PartialEq, Eq)]
pub struct Totals {
    pub faces: usize,
    pub requests: usize,
    pub kept: bool,
}

impl Totals {
    pub fn of(faces: &[Face], handed: &[Handed]) -> Totals
        ensures counts { (result.faces ≡ length handed.now) × (result.requests ≡ 2 * length handed.now) }
        ensures kept { Decides result.kept (KeepsItsTolerance faces.now handed.now) }
    {
        Totals {
            faces: handed.len(),
            // One request fills the word, and one takes it.
            requests: 2 * handed.len(),
            kept: each_kept(faces, handed),
        }
    }
}

// Whether the tolerances were kept, in words. By hand: only the totals write a `bool` so.
fn in_words(kept: bool) -> &'static str
    ensures { result.now ≡ shown_kept kept }
{
    if kept {
        "each face kept its tolerance"
    } else {
        "a face lost its tolerance"
    }
}

impl fmt::Display for Totals {
    ghost output = { λ t. Some (shown_totals t) };

    fn fmt<W: fmt::Write>(&self, f: &mut fmt::Formatter<W>) -> fmt::Result {
        write!(
            f,
            "{} faces, {} requests: {}",
            self.faces,
            self.requests,
            in_words(self.kept)
        )
    }
}
