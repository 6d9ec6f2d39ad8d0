// A cache of late writes: a written sector waits in a line until the line has to make room or the cache is flushed.
ghost use Rattle.std.specs.Prelude.{◌≡◌, ℕ, ◌<◌, ◌≤◌, true, [], ◌∷◌, length, replicate, is_some, MatchResult};
ghost use Rattle.device.specs.declared.fault.DeviceFault.TheVariants.{NoBlock};
ghost use Rattle.device.specs.Blocks.{if_block};
ghost use Rattle.device.specs.Answers.{answer_of, change_answer, read_answer, read_buffer};
ghost use Rattle.device.specs.Operations.{write, wipe, lose};
ghost use Rattle.device.specs.Effects.{Effect, Steps};
ghost use Rattle.lines.specs.Lines.{empty_line, waiting, all_waiting, waiting_for};
ghost use Rattle.lines.specs.Tables.{lines_written, turn_written, evicted, lines_without};
ghost use Rattle.layers.specs.Caching.{cached, CacheNamed};

use device::{Device, DeviceFault, Sector, check_block};
use lines::Table;

// A device with four lines in front of it, in which written sectors wait.
#[derive(Drop)]
pub struct Cache<D: Device> {
    // the device below; what is written to it here goes past the lines
    pub below: D,
    pub(crate) table: Table,
}

impl<D: Device> Cache<D> {
    // A cache over the device, with four empty lines. It shows and holds what the device does.
    pub fn new(below: D) -> Cache<D>
        ensures below { result.below ≡ below }
        ensures lines { result.table.lines ≡ replicate 4 empty_line }
        ensures turn { result.table.turn ≡ 0 }
        ensures shows { (cached D.Device).shown result ≡ D.Device.shown below }
        ensures holds { (n : ℕ) → (cached D.Device).held result n ≡ D.Device.held below n }
    {
        Cache {
            below,
            table: Table::new(),
        }
    }

    // Whether a sector waits for block n.
    pub fn waits(&self, n: u32) -> bool
        ensures { result ≡ is_some (waiting_for self.now.table.lines n) }
    {
        self.table.sector_for(n).is_some()
    }

    // Refuses a block number that is past the count. A mirror has its own, alike: one function over any device would call the count of the
    // layer whose calls call it, which the borrow checker doesn't cover.
    fn check(&self, n: u32) -> Result<(), DeviceFault>
        ensures { MatchResult result (λ _. n < length ((cached D.Device).shown self.now)) (λ f. (length ((cached D.Device).shown self.now) ≤ n) × (f ≡ NoBlock n)) }
    {
        check_block(self.count(), n)
    }
}

// A wipe and a mark differ in one call. A function for both would take it as a closure, and the clauses would stand at both all the same:
// those about lines, turn and the device below are a promise of each call.
#[tactic(auto, using(crate::proofs::CacheRuns::cache_count))]
impl<D: Device> Device for Cache<D> {
    ghost shown = { (cached D.Device).shown };

    ghost held = { (cached D.Device).held };

    ghost settled = { (cached D.Device).settled };

    // How many blocks there are. Whatever is kept in the lines or below is shown or held.
    #[tactic(auto, using(crate::proofs::CacheRuns::cache_count, crate::proofs::Naming::cache_named))]
    fn count(&self) -> u32
        ensures count { result ≡ length ((cached D.Device).shown self.now) }
        ensures most { result ≤ 1024 }
        ensures below { result ≡ length (D.Device.shown self.now.below) }
        ensures named { CacheNamed D.Device self.now }
    {
        self.below.count()
    }

    fn read(&mut self, n: u32, buf: &mut Sector) -> Result<(), DeviceFault>
        ensures answer { answer_of result ≡ read_answer ((cached D.Device).shown self.old) n }
        ensures buffer { buf.new ≡ read_buffer ((cached D.Device).shown self.old) n buf.old }
        ensures effect { Effect (cached D.Device) [] self.old self.new }
        ensures lines { self.new.table.lines ≡ self.old.table.lines }
        ensures turn { self.new.table.turn ≡ self.old.table.turn }
        ensures below { Effect D.Device [] self.old.below self.new.below }
    {
        self.check(n)?;
        match self.table.sector_for(n) {
            Some(s) => {
                *buf = s;
                Ok(())
            }
            None => self.below.read(n, buf),
        }
    }

    // Has the sector wait for block n. A line that has to make room is written below first.
    fn write(&mut self, n: u32, s: &Sector) -> Result<(), DeviceFault>
        ensures answer { answer_of result ≡ change_answer ((cached D.Device).shown self.old) n }
        ensures effect { Effect (cached D.Device) (write n s.now ∷ []) self.old self.new }
        ensures lines { self.new.table.lines ≡ if_block (D.Device.shown self.old.below) n (lines_written self.old.table n s.now) self.old.table.lines }
        ensures turn { self.new.table.turn ≡ if_block (D.Device.shown self.old.below) n (turn_written self.old.table n) self.old.table.turn }
        ensures below { Effect D.Device (if_block (D.Device.shown self.old.below) n (waiting (evicted self.old.table n)) []) self.old.below self.new.below }
    {
        self.check(n)?;
        let (table, left) = self.table.write(n, s);
        left.write_back(&mut self.below);
        self.table = table;
        Ok(())
    }

    // Drops the line for block n and wipes the block below.
    fn wipe(&mut self, n: u32) -> Result<(), DeviceFault>
        ensures answer { answer_of result ≡ change_answer ((cached D.Device).shown self.old) n }
        ensures effect { Effect (cached D.Device) (wipe n ∷ []) self.old self.new }
        ensures lines { self.new.table.lines ≡ if_block (D.Device.shown self.old.below) n (lines_without self.old.table n) self.old.table.lines }
        ensures turn { self.new.table.turn ≡ self.old.table.turn }
        ensures below { Effect D.Device (wipe n ∷ []) self.old.below self.new.below }
    {
        self.check(n)?;
        self.table = self.table.without(n);
        self.below.wipe(n)
    }

    // Drops the line for block n and marks the block below.
    fn mark(&mut self, n: u32) -> Result<(), DeviceFault>
        ensures answer { answer_of result ≡ change_answer ((cached D.Device).shown self.old) n }
        ensures effect { Effect (cached D.Device) (lose n ∷ []) self.old self.new }
        ensures lines { self.new.table.lines ≡ if_block (D.Device.shown self.old.below) n (lines_without self.old.table n) self.old.table.lines }
        ensures turn { self.new.table.turn ≡ self.old.table.turn }
        ensures below { Effect D.Device (lose n ∷ []) self.old.below self.new.below }
    {
        self.check(n)?;
        self.table = self.table.without(n);
        self.below.mark(n)
    }

    // Writes the lines below in order and empties them, then flushes the device below.
    fn flush(&mut self)
        ensures settles { (cached D.Device).settled self.new ≡ true }
        ensures effect { Effect (cached D.Device) [] self.old self.new }
        ensures lines { self.new.table.lines ≡ replicate 4 empty_line }
        ensures turn { self.new.table.turn ≡ self.old.table.turn }
        ensures below { Steps D.Device (all_waiting self.old.table.lines) self.old.below self.new.below }
    {
        self.table.write_back(&mut self.below);
        self.table = self.table.emptied();
        self.below.flush();
    }
}
