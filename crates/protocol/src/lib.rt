// Coherence protocols: what a cache may do with its copy of a line, and how copies move.
#![tactic(auto)]

ghost use Rattle.std.specs.Prelude.{◌≡◌};
ghost use Rattle.protocol.specs.Rules.{Rules, Lawful};

pub mod standards;

// A protocol gives meaning to the state code of a copy: a byte and no enum, since the codes are the protocol's own, and the
// board hands them on as bytes (docs/PROTOCOLS.md). A copy is kept if it may be read, sole if it may be written, and owing
// if memory need not have it yet. Asking changes nothing.
pub trait Protocol {
    ghost rules: { Self → Rules };

    fn is_kept(&self, code: u8) -> bool
        ensures { result ≡ (rules self.now).kept code };

    fn is_sole(&self, code: u8) -> bool
        ensures { result ≡ (rules self.now).sole code };

    fn is_owing(&self, code: u8) -> bool
        ensures { result ≡ (rules self.now).owing code };

    // The next code of a copy after another cache's read.
    fn after_read(&self, code: u8) -> u8
        ensures { result ≡ (rules self.now).after_read code };

    // The next code of a copy after another cache's claim.
    fn after_claim(&self, code: u8) -> u8
        ensures { result ≡ (rules self.now).after_claim code };

    // The code of a line that was read in; `shared` if another cache kept it as that began.
    fn read_fill(&self, shared: bool) -> u8
        ensures { result ≡ (rules self.now).read_fill shared };

    // The code of a copy after its own core's claim.
    fn own_claim(&self) -> u8
        ensures { result ≡ (rules self.now).own_claim };

    ghost lawful: { (p : Self) → Lawful (rules p) };
}
