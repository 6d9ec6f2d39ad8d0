// A card on the caller's bytes: N state bytes, then for each block its places.
ghost use Rattle.std.specs.Prelude.{◌≡◌, ◌≤◌, true, [], ◌∷◌, length, IfOk, MatchResult};
ghost use Rattle.device.specs.Answers.{accepted, answer_of, of_block, change_answer, read_answer, read_buffer};
ghost use Rattle.device.specs.Operations.{write, wipe, lose};
ghost use Rattle.device.specs.declared.fault.DeviceFault.TheVariants.{NoBlock};
ghost use Rattle.bottoms.specs.Images.{Located, Lent, image_shown, image_held, Runs, write_image, wipe_image, mark_image};
ghost use Rattle.bottoms.specs.Named.{Named};
ghost use Rattle.bottoms.specs.Opening.{opening, opening_of};

use crate::block::Block;
use crate::fault::Refused;
use crate::image::{check_size, count_blocks, erase, fill};
use crate::placement::{InPlace, Placement, Rotation};
use device::{Device, DeviceFault, Sector, check_block};

// The bytes that the caller lent, and how a block uses its places.
#[derive(Drop)]
pub struct Card<'a, P> {
    bytes: &'a mut [u8],
    placement: P,
}

// Where a block lies: the index of its state, and the start of its first place.
#[derive(Clone, Copy)]
struct Location {
    state: usize,
    first: usize,
}

// The card that writes a block over where it lies.
pub type Plain<'a> = Card<'a, InPlace>;

// The card that writes each time to the next of a block's four places.
pub type Rotating<'a> = Card<'a, Rotation>;

impl<'a, P: Placement> Card<'a, P> {
    // The card of so many blocks that these bytes are. Nothing is written, and refused memory is handed back.
    #[tactic(auto, using(crate::proofs::Changes::count_shown, crate::proofs::Places::count_fits))]
    pub fn open(bytes: &'a mut [u8], count: u32) -> Result<Card<'a, P>, Refused<'a>>
        ensures answer { opening_of (λ d. d.bytes.now) result ≡ opening P.Placement.format bytes.old count }
        ensures blocks { IfOk result (λ d. length (image_shown P.Placement.format d.bytes.now) ≡ count) }
    {
        let placement = P::default();
        match check_size(bytes.len(), placement.places(), count) {
            Ok(()) => Ok(Card { bytes, placement }),
            Err(fault) => Err(Refused { fault, bytes }),
        }
    }

    // Where block n lies.
    #[tactic(auto, using(crate::proofs::Changes::count_shown))]
    fn find(&self, n: u32) -> Result<Location, DeviceFault>
        ensures { MatchResult result (λ l. Located (length self.now.bytes.now) P.Placement.format.places n l.state l.first) (λ f. (length (image_shown P.Placement.format self.now.bytes.now) ≤ n) × (f ≡ NoBlock n)) }
    {
        let count = self.count();
        check_block(count, n)?;
        let state = n as usize;
        Ok(Location {
            state,
            first: count as usize + 64 * (self.placement.places() * state),
        })
    }

    // The places of block n, and which of them is shown.
    fn block(&self, n: u32) -> Result<Block<'_>, DeviceFault>
        ensures { MatchResult result (λ b. Lent P.Placement.format self.now.bytes.now n b.places.now b.shown) (λ f. (length (image_shown P.Placement.format self.now.bytes.now) ≤ n) × (f ≡ NoBlock n)) }
    {
        let at = self.find(n)?;
        Ok(Block {
            places: &self.bytes[at.first..at.first + 64 * self.placement.places()],
            shown: self.placement.shown(self.bytes[at.state]),
        })
    }

    // How many sectors that aren't blank the card keeps for block n beside the one shown. These and those shown are all that it keeps.
    #[tactic(auto, using(crate::proofs::Named::image_named))]
    pub fn held_count(&self, n: u32) -> Result<usize, DeviceFault>
        ensures answer { answer_of result ≡ of_block (image_shown P.Placement.format self.now.bytes.now) n (accepted (length (image_held P.Placement.format self.now.bytes.now n))) }
        ensures named { Named P.Placement.format self.now.bytes.now }
    {
        Ok(self.block(n)?.count_held())
    }
}

#[tactic(auto, using(crate::proofs::Changes::count_shown))]
impl<P: Placement> Device for Card<'_, P> {
    ghost shown = { λ d. image_shown P.Placement.format d.bytes.now };

    ghost held = { λ d. image_held P.Placement.format d.bytes.now };

    ghost settled = { λ _. true };

    fn count(&self) -> u32
        ensures count { result ≡ length (image_shown P.Placement.format self.now.bytes.now) }
        ensures most { result ≤ 1024 }
        ensures image { self.exit.now.bytes.now ≡ self.entry.now.bytes.now }
    {
        count_blocks(self.bytes.len(), self.placement.places())
    }

    fn read(&mut self, n: u32, buf: &mut Sector) -> Result<(), DeviceFault>
        ensures answer { answer_of result ≡ read_answer (image_shown P.Placement.format self.old.bytes.now) n }
        ensures buffer { buf.new ≡ read_buffer (image_shown P.Placement.format self.old.bytes.now) n buf.old }
        ensures effect { Runs P.Placement.format [] self.old.bytes.now self.new.bytes.now }
        ensures image { self.new.bytes.now ≡ self.old.bytes.now }
    {
        self.block(n)?.read(n, buf)
    }

    fn write(&mut self, n: u32, s: &Sector) -> Result<(), DeviceFault>
        ensures answer { answer_of result ≡ change_answer (image_shown P.Placement.format self.old.bytes.now) n }
        ensures effect { Runs P.Placement.format (write n s.now ∷ []) self.old.bytes.now self.new.bytes.now }
        ensures image { self.new.bytes.now ≡ write_image P.Placement.format self.old.bytes.now n s.now }
    {
        let at = self.find(n)?;
        let state = self.bytes[at.state];
        let next = self.placement.next(state);
        let start = at.first + 64 * usize::from(next);
        self.bytes[at.state] = next;
        fill(&mut self.bytes[start..start + 64], s);
        Ok(())
    }

    fn wipe(&mut self, n: u32) -> Result<(), DeviceFault>
        ensures answer { answer_of result ≡ change_answer (image_shown P.Placement.format self.old.bytes.now) n }
        ensures effect { Runs P.Placement.format (wipe n ∷ []) self.old.bytes.now self.new.bytes.now }
        ensures image { self.new.bytes.now ≡ wipe_image P.Placement.format self.old.bytes.now n }
    {
        let at = self.find(n)?;
        let places = self.placement.places();
        self.bytes[at.state] = 0;
        erase(&mut self.bytes[at.first..at.first + 64 * places]);
        Ok(())
    }

    fn mark(&mut self, n: u32) -> Result<(), DeviceFault>
        ensures answer { answer_of result ≡ change_answer (image_shown P.Placement.format self.old.bytes.now) n }
        ensures effect { Runs P.Placement.format (lose n ∷ []) self.old.bytes.now self.new.bytes.now }
        ensures image { self.new.bytes.now ≡ mark_image P.Placement.format self.old.bytes.now n }
    {
        let at = self.find(n)?;
        let state = self.bytes[at.state];
        self.bytes[at.state] = self.placement.marked(state);
        Ok(())
    }

    // No write waits in a card.
    fn flush(&mut self)
        ensures settles { true ≡ true }
        ensures effect { Runs P.Placement.format [] self.old.bytes.now self.new.bytes.now }
        ensures image { self.new.bytes.now ≡ self.old.bytes.now }
    {}
}
