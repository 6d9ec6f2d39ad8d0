// The trait of block devices, by what a device shows and holds.
ghost use Rattle.std.specs.Prelude.{◌≡◌, ◌≤◌, Bool, true, List, [], ◌∷◌, length};
ghost use Rattle.device.specs.Blocks.{Shown, Held};
ghost use Rattle.device.specs.Answers.{answer_of, change_answer, read_answer, read_buffer};
ghost use Rattle.device.specs.Operations.{write, wipe, lose, Ran};

use crate::fault::DeviceFault;
use crate::sector::Sector;

// A device of a fixed count of blocks, at most 1,024, numbered from 0. Each shows a sector or is lost. A call of an `impl` that has clauses of
// its own repeats those below, `most` among them, since its own stand in their place.
pub trait Device {
    // what each block shows, in order; the length is the count
    ghost shown: { Self → List Shown };

    // the non-blank sectors that are kept for a block beside the one shown
    ghost held: { Self → Held };

    // whether no write waits in a layer for its device below to take it
    ghost settled: { Self → Bool };

    // How many blocks there are.
    fn count(&self) -> u32
        ensures count { result ≡ length (shown self.now) }
        ensures most { result ≤ 1024 };

    // Fills the buffer with the sector that block n shows.
    fn read(&mut self, n: u32, buf: &mut Sector) -> Result<(), DeviceFault>
        ensures answer { answer_of result ≡ read_answer (shown self.old) n }
        ensures buffer { buf.new ≡ read_buffer (shown self.old) n buf.old }
        ensures effect { Ran [] (shown self.old) (held self.old) (shown self.new) (held self.new) };

    // Makes block n show the sector; the one shown before may still be held. Number and sector are two parameters, and no struct, since no other
    // call of a device takes both.
    fn write(&mut self, n: u32, s: &Sector) -> Result<(), DeviceFault>
        ensures answer { answer_of result ≡ change_answer (shown self.old) n }
        ensures effect { Ran (write n s.now ∷ []) (shown self.old) (held self.old) (shown self.new) (held self.new) };

    // Makes block n show zeros and hold nothing.
    fn wipe(&mut self, n: u32) -> Result<(), DeviceFault>
        ensures answer { answer_of result ≡ change_answer (shown self.old) n }
        ensures effect { Ran (wipe n ∷ []) (shown self.old) (held self.old) (shown self.new) (held self.new) };

    // Makes block n lost; the sector shown before may still be held.
    fn mark(&mut self, n: u32) -> Result<(), DeviceFault>
        ensures answer { answer_of result ≡ change_answer (shown self.old) n }
        ensures effect { Ran (lose n ∷ []) (shown self.old) (held self.old) (shown self.new) (held self.new) };

    // Passes writes that wait in a layer down to where they are kept; no block shows anything else.
    fn flush(&mut self)
        ensures settles { settled self.new ≡ true }
        ensures effect { Ran [] (shown self.old) (held self.old) (shown self.new) (held self.new) };
}
