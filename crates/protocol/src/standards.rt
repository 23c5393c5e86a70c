// MSI and MESI.
ghost use Rattle.std.specs.Prelude.{◌≡◌};
ghost use Rattle.protocol.specs.Standards.{state_of, code_of, kept, sole, owing, after_read, filled, standard_rules};
ghost use Rattle.std.proofs.Common.{rules};

use crate::Protocol;

// The state of a cache's copy of a line, by its code.
#[derive(Clone, Copy, Debug, PartialEq, Eq)]
pub enum LineState {
    Invalid = 0,
    Shared = 1,
    Exclusive = 2,
    Modified = 3,
}

impl From<LineState> for u8 {
    ghost from_gives = { λ state code. code ≡ code_of state };

    fn from(state: LineState) -> u8 {
        state as u8
    }
}

impl LineState {
    fn is_kept(self) -> bool
        ensures { result ≡ kept self }
    {
        !matches!(self, LineState::Invalid)
    }

    fn is_sole(self) -> bool
        ensures { result ≡ sole self }
    {
        matches!(self, LineState::Exclusive | LineState::Modified)
    }

    fn is_owing(self) -> bool
        ensures { result ≡ owing self }
    {
        matches!(self, LineState::Modified)
    }

    fn after_read(self) -> LineState
        ensures { result ≡ after_read self }
    {
        match self {
            LineState::Invalid => LineState::Invalid,
            LineState::Shared | LineState::Exclusive | LineState::Modified => LineState::Shared,
        }
    }
}

#[derive(Clone, Copy, Debug, PartialEq, Eq)]
pub enum Standard {
    Msi,
    Mesi,
}

impl Standard {
    // The state that a code stands for; a code that is not used counts as invalid, so nothing is refused as in a `TryFrom`.
    fn state(self, code: u8) -> LineState
        ensures { result ≡ state_of self code }
    {
        match (self, code) {
            (_, 1) => LineState::Shared,
            (Standard::Mesi, 2) => LineState::Exclusive,
            (_, 3) => LineState::Modified,
            _ => LineState::Invalid,
        }
    }

    fn filled(self, shared: bool) -> LineState
        ensures { result ≡ filled self shared }
    {
        match self {
            Standard::Mesi if !shared => LineState::Exclusive,
            _ => LineState::Shared,
        }
    }
}

impl Protocol for Standard {
    ghost rules = { standard_rules };

    ghost lawful = { Prim.search rules };

    fn is_kept(&self, code: u8) -> bool {
        self.state(code).is_kept()
    }

    fn is_sole(&self, code: u8) -> bool {
        self.state(code).is_sole()
    }

    fn is_owing(&self, code: u8) -> bool {
        self.state(code).is_owing()
    }

    fn after_read(&self, code: u8) -> u8 {
        self.state(code).after_read().into()
    }

    fn after_claim(&self, _code: u8) -> u8 {
        LineState::Invalid.into()
    }

    fn read_fill(&self, shared: bool) -> u8 {
        self.filled(shared).into()
    }

    fn own_claim(&self) -> u8 {
        LineState::Modified.into()
    }
}
