// Which faces are to be handed over.
ghost use Rattle.std.specs.Prelude.{◌≡◌, ℕ, map, IfOk, MatchOption};
ghost use Rattle.std.specs.List.{range_with_len};
ghost use Rattle.mould.specs.Plan.{face_numbered, CountOf};

use std::alloc::{AllocError, Global};

// A face of the mould, and how far it may be off, in micrometres.
#[derive(Clone, Copy, Debug, PartialEq, Eq)]
pub struct Face {
    pub number: u32,
    pub tolerance: u32,
}

// As many faces as one run hands over.
pub const MOST_FACES: u32 = 100_000;

// The number of faces that a text asks for; none where it is no number, or more than `MOST_FACES`.
pub fn face_count(text: &str) -> Option<u32>
    ensures { MatchOption result ((n : ℕ) → CountOf text.now n → ⊥) (λ n. CountOf text.now n) }
{
    text.parse().ok().filter(|count| *count <= MOST_FACES)
}

impl Face {
    // The face with a number; neighbours have different tolerances, of 5 to 50 micrometres.
    pub fn numbered(number: u32) -> Face
        ensures { result ≡ face_numbered number }
    {
        Face {
            number,
            tolerance: 5 + number % 46,
        }
    }
}

// The first `count` faces, numbered from 1.
pub fn first_faces(heap: Global, count: u32) -> Result<Vec<Face>, AllocError>
    ensures { IfOk result (λ v. v.items ≡ map face_numbered (range_with_len 1 count)) }
{
    (1..=count).map(Face::numbered).collect(heap)
}
