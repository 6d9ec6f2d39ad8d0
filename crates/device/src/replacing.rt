// A block given new content with nothing left of the old.
ghost use Rattle.std.specs.Prelude.{◌≡◌, ℕ, ◌<◌, List, [], ◌∷◌, length};
ghost use Rattle.device.specs.Blocks.{◌∈◌};
ghost use Rattle.device.specs.Answers.{answer_of, change_answer};
ghost use Rattle.device.specs.Operations.{write, wipe, Ran};
ghost use Rattle.device.specs.Forgetting.{ForgotAllBut};

use crate::fault::DeviceFault;
use crate::sector::Sector;
use crate::traits::Device;

// Wipes block n, then writes the sector: it shows the sector and nothing is held for it, and nothing that is done later brings back what
// it showed or held before.
pub fn replace<D: Device>(device: &mut D, n: u32, s: &Sector) -> Result<(), DeviceFault>
    ensures answer { answer_of result ≡ change_answer (D.shown device.old) n }
    ensures effect { Ran (wipe n ∷ write n s.now ∷ []) (D.shown device.old) (D.held device.old) (D.shown device.new) (D.held device.new) }
    ensures nothing { n < length (D.shown device.old) → (x : List ℕ) → x ∈ D.held device.new n → ⊥ }
    ensures forgot { n < length (D.shown device.old) → ForgotAllBut s.now n (D.shown device.new) (D.held device.new) }
{
    device.wipe(n)?;
    device.write(n, s)
}
