// The repair of a mirror's block.
ghost use Rattle.std.specs.Prelude.{◌≡◌, ◌+◌, ◌≤◌, [], length};
ghost use Rattle.device.specs.Blocks.{shown_at};
ghost use Rattle.device.specs.Answers.{answer_of};
ghost use Rattle.device.specs.Effects.{Effect};
ghost use Rattle.layers.specs.Mirroring.{mirrored, shows_sector, mending, repairing, repair_answer};

use crate::mirror::Mirror;
use device::{Device, DeviceFault, Sector, blank_sector};

// Whether block n of a device shows the sector.
fn shows<D: Device>(device: &mut D, n: u32, s: &Sector) -> bool
    ensures value { result ≡ shows_sector s.now (shown_at (D.Device.shown device.old) n) }
    ensures effect { Effect D.Device [] device.old device.new }
{
    let mut shown = blank_sector();
    device.read(n, &mut shown).is_ok() && *s == shown
}

// Has block n of a device show the sector: writes it unless it is shown already. How many writes that took: a count and no `bool`, since
// repair answers the sum.
fn mend<D: Device>(device: &mut D, n: u32, s: &Sector) -> u32
    ensures writes { result ≡ length (mending n s.now (shown_at (D.Device.shown device.old) n)) }
    ensures most { result ≤ 1 }
    ensures effect { Effect D.Device (mending n s.now (shown_at (D.Device.shown device.old) n)) device.old device.new }
{
    if shows(device, n, s) {
        return 0;
    }
    let _ = device.write(n, s);
    1
}

impl<A: Device, B: Device> Mirror<A, B> {
    // Writes the sector that block n shows to a side that is lost or shows another; how many were written. Nothing more is held then.
    pub fn repair(&mut self, n: u32) -> Result<u32, DeviceFault>
        ensures answer { answer_of result ≡ repair_answer (A.Device.shown self.old.a) (B.Device.shown self.old.b) n }
        ensures effect { Effect (mirrored A.Device B.Device) [] self.old self.new }
        ensures first { Effect A.Device (repairing n (shown_at ((mirrored A.Device B.Device).shown self.old) n) (shown_at (A.Device.shown self.old.a) n)) self.old.a self.new.a }
        ensures second { Effect B.Device (repairing n (shown_at ((mirrored A.Device B.Device).shown self.old) n) (shown_at (B.Device.shown self.old.b) n)) self.old.b self.new.b }
    {
        let mut shown = blank_sector();
        self.read(n, &mut shown)?;
        Ok(mend(&mut self.a, n, &shown) + mend(&mut self.b, n, &shown))
    }
}
