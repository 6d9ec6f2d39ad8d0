// The places of one block, lent for reading.
ghost use Rattle.std.specs.Prelude.{◌≡◌, ◌+◌, ◌*◌, ◌≤◌, length, ◌==◌};
ghost use Rattle.std.specs.Option.{ForSome};
ghost use Rattle.std.specs.List.{list_all};
ghost use Rattle.device.specs.Answers.{answer_of, read_block, filled};
ghost use Rattle.bottoms.specs.Images.{place_in, showing, is_held, count_in};

use device::{DeviceFault, Sector};

// The bytes of a block's places, and which place is shown.
#[derive(Drop)]
pub(crate) struct Block<'a> {
    pub(crate) places: &'a [u8],
    pub(crate) shown: Option<usize>,
    ghost inside: { ForSome shown (λ j. 64 * j + 64 ≤ length places.now) },
}

impl Block<'_> {
    // The bytes of place j.
    fn place(&self, j: usize) -> &[u8]
        requires { 64 * j + 64 ≤ length self.now.places.now }
        ensures bytes { result.now ≡ place_in self.now.places.now j }
        ensures long { length result.now ≡ 64 }
    {
        &self.places[64 * j..64 * j + 64]
    }

    // Whether place j counts as held: it isn't shown, and it isn't blank.
    fn is_held(&self, j: usize) -> bool
        requires { 64 * j + 64 ≤ length self.now.places.now }
        ensures { result ≡ is_held (place_in self.now.places.now) self.now.shown j }
    {
        self.shown != Some(j) && !is_blank(self.place(j))
    }

    // How many places hold a sector that isn't blank, beside the one shown.
    pub(crate) fn count_held(&self) -> usize
        ensures { result ≡ count_in self.now.places.now self.now.shown }
    {
        (0..self.places.len() / 64)
            .filter(|&j| self.is_held(j))
            .count()
    }

    // Copies the shown place of block n into the buffer; where none is shown, the block is lost.
    pub(crate) fn read(&self, n: u32, buf: &mut Sector) -> Result<(), DeviceFault>
        ensures answer { answer_of result ≡ read_block n (showing (place_in self.now.places.now) self.now.shown) }
        ensures buffer { buf.new ≡ filled (showing (place_in self.now.places.now) self.now.shown) buf.old }
    {
        let j = self.shown.ok_or(DeviceFault::Lost(n))?;
        buf.copy_from_slice(self.place(j));
        Ok(())
    }
}

// Whether every byte is zero.
fn is_blank(place: &[u8]) -> bool
    ensures { result ≡ list_all (λ b. b == 0) place.now }
{
    place.iter().all(|&b| b == 0)
}
