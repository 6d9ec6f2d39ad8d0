// A mirror of two devices: what is written goes to both sides, and is read from the first that isn't lost.
ghost use Rattle.std.specs.Prelude.{◌≡◌, ◌≤◌, ◌<◌, min, true, [], ◌∷◌, length, MatchResult};
ghost use Rattle.device.specs.declared.fault.DeviceFault.TheVariants.{NoBlock};
ghost use Rattle.device.specs.Answers.{answer_of, change_answer, read_answer, read_buffer};
ghost use Rattle.device.specs.Operations.{write, wipe, lose};
ghost use Rattle.device.specs.Effects.{Effect};
ghost use Rattle.layers.specs.Mirroring.{mirrored, MirrorNamed, passed};

use device::{Device, DeviceFault, Sector, check_block};

// Two devices that are written alike, so that what one loses the other still shows.
#[derive(Drop)]
pub struct Mirror<A: Device, B: Device> {
    // the first side, which is shown where it isn't lost
    pub a: A,
    // the second side
    pub b: B,
}

impl<A: Device, B: Device> Mirror<A, B> {
    // A mirror of the two devices.
    pub fn new(a: A, b: B) -> Mirror<A, B>
        ensures first { result.a ≡ a }
        ensures second { result.b ≡ b }
    {
        Mirror { a, b }
    }

    // Refuses a block number that is past the count of a side. It is the mirror's own, as the cache's is.
    fn check(&self, n: u32) -> Result<(), DeviceFault>
        ensures { MatchResult result (λ _. n < length ((mirrored A.Device B.Device).shown self.now)) (λ f. (length ((mirrored A.Device B.Device).shown self.now) ≤ n) × (f ≡ NoBlock n)) }
    {
        check_block(self.count(), n)
    }
}

// A side refuses no change of a block that both have, so its answer to one says nothing new. The three changes are alike but for the call
// that each makes; one function for them would take a closure for either side, and be no shorter. The clauses about the sides are a promise
// of each call.
impl<A: Device, B: Device> Device for Mirror<A, B> {
    ghost shown = { (mirrored A.Device B.Device).shown };

    ghost held = { (mirrored A.Device B.Device).held };

    ghost settled = { (mirrored A.Device B.Device).settled };

    // How many blocks there are. Whatever is kept on either side is shown or held.
    #[tactic(auto, using(crate::proofs::MirrorRuns::mirror_count, crate::proofs::Naming::mirror_named))]
    fn count(&self) -> u32
        ensures count { result ≡ length ((mirrored A.Device B.Device).shown self.now) }
        ensures most { result ≤ 1024 }
        ensures named { MirrorNamed A.Device B.Device self.now }
        ensures smaller { result ≡ min (length (A.Device.shown self.now.a)) (length (B.Device.shown self.now.b)) }
    {
        self.a.count().min(self.b.count())
    }

    fn read(&mut self, n: u32, buf: &mut Sector) -> Result<(), DeviceFault>
        ensures answer { answer_of result ≡ read_answer ((mirrored A.Device B.Device).shown self.old) n }
        ensures buffer { buf.new ≡ read_buffer ((mirrored A.Device B.Device).shown self.old) n buf.old }
        ensures effect { Effect (mirrored A.Device B.Device) [] self.old self.new }
        ensures first { Effect A.Device [] self.old.a self.new.a }
        ensures second { Effect B.Device [] self.old.b self.new.b }
    {
        self.check(n)?;
        // a `match`, since of an `or_else` the check doesn't find four of the clauses
        match self.a.read(n, buf) {
            Ok(()) => Ok(()),
            Err(_) => self.b.read(n, buf),
        }
    }

    fn write(&mut self, n: u32, s: &Sector) -> Result<(), DeviceFault>
        ensures answer { answer_of result ≡ change_answer ((mirrored A.Device B.Device).shown self.old) n }
        ensures effect { Effect (mirrored A.Device B.Device) (write n s.now ∷ []) self.old self.new }
        ensures first { Effect A.Device (passed ((mirrored A.Device B.Device).shown self.old) (write n s.now)) self.old.a self.new.a }
        ensures second { Effect B.Device (passed ((mirrored A.Device B.Device).shown self.old) (write n s.now)) self.old.b self.new.b }
    {
        self.check(n)?;
        let _ = self.a.write(n, s);
        let _ = self.b.write(n, s);
        Ok(())
    }

    fn wipe(&mut self, n: u32) -> Result<(), DeviceFault>
        ensures answer { answer_of result ≡ change_answer ((mirrored A.Device B.Device).shown self.old) n }
        ensures effect { Effect (mirrored A.Device B.Device) (wipe n ∷ []) self.old self.new }
        ensures first { Effect A.Device (passed ((mirrored A.Device B.Device).shown self.old) (wipe n)) self.old.a self.new.a }
        ensures second { Effect B.Device (passed ((mirrored A.Device B.Device).shown self.old) (wipe n)) self.old.b self.new.b }
    {
        self.check(n)?;
        let _ = self.a.wipe(n);
        let _ = self.b.wipe(n);
        Ok(())
    }

    fn mark(&mut self, n: u32) -> Result<(), DeviceFault>
        ensures answer { answer_of result ≡ change_answer ((mirrored A.Device B.Device).shown self.old) n }
        ensures effect { Effect (mirrored A.Device B.Device) (lose n ∷ []) self.old self.new }
        ensures first { Effect A.Device (passed ((mirrored A.Device B.Device).shown self.old) (lose n)) self.old.a self.new.a }
        ensures second { Effect B.Device (passed ((mirrored A.Device B.Device).shown self.old) (lose n)) self.old.b self.new.b }
    {
        self.check(n)?;
        let _ = self.a.mark(n);
        let _ = self.b.mark(n);
        Ok(())
    }

    fn flush(&mut self)
        ensures settles { (mirrored A.Device B.Device).settled self.new ≡ true }
        ensures effect { Effect (mirrored A.Device B.Device) [] self.old self.new }
        ensures first { Effect A.Device [] self.old.a self.new.a }
        ensures second { Effect B.Device [] self.old.b self.new.b }
    {
        self.a.flush();
        self.b.flush();
    }
}
