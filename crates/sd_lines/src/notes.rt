// The notes of volumes, as far as a line that labels a volume or takes one over has to do with them.
ghost use Rattle.std.specs.Prelude.{ℕ, List, Ok, Result};
ghost use Rattle.sd_base.specs.declared.refusal.Refusal.{Refusal as SpecRefusal};
ghost use Rattle.sd_lines.specs.declared.notes.Taken.{Taken as SpecTaken};

use sd_base::{DriveNo, Refusal, VolName};
use sd_note::Note;

/// What was taken away of a volume's note.
#[derive(Clone, Copy, Debug, PartialEq, Eq)]
pub enum Taken {
    /// There was none.
    Nothing,
    /// It said this.
    Note(Note),
}

/// Where the notes of the drives' volumes lie. A volume's note is taken away before the volume is labelled or taken over, and
/// put back if that is refused.
///
/// What `take` answered and what was put back are known by its clauses alone: so who has to show it has to call them.
pub trait Notes {
    ghost answered: { Self → ℕ → List ℕ → Result SpecTaken SpecRefusal → Type 0 };

    ghost has_back: { Self → ℕ → List ℕ → SpecTaken → Type 0 };

    /// Takes the note of a drive's volume of this name away. If it can't be, it stays: a device fault, or out of memory.
    fn take(&self, drive: DriveNo, name: &VolName) -> Result<Taken, Refusal>
        ensures { answered self.now drive name.now result };

    /// Puts back what was taken.
    fn put_back(&self, drive: DriveNo, name: &VolName, taken: Taken)
        requires { answered self.now drive name.now (Ok taken) }
        ensures { has_back self.now drive name.now taken };
}
