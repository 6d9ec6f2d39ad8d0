// The bytes of a card: a state byte for each block, then for each block its places of 64 bytes.
ghost use Rattle.std.specs.Prelude.{◌≡◌, ◌≤◌, length, replicate};
ghost use Rattle.bottoms.specs.Images.{blocks_in};
ghost use Rattle.bottoms.specs.Opening.{size_answer};

use crate::fault::OpenFault;
use device::Sector;

// Whether so many bytes are the image of so many blocks.
pub(crate) fn check_size(len: usize, places: usize, count: u32) -> Result<(), OpenFault>
    requires { places ≤ 4 }
    ensures { result ≡ size_answer places len count }
{
    if (1..=1024).contains(&count) && len == (1 + 64 * places) * count as usize {
        Ok(())
    } else {
        Err(OpenFault::WrongMemory)
    }
}

// How many blocks so many bytes have, at most 1,024.
pub(crate) fn count_blocks(len: usize, places: usize) -> u32
    requires { places ≤ 4 }
    ensures { result ≡ blocks_in len places }
{
    (len / (1 + 64 * places)).min(1024) as u32
}

// Fills a place with the sector. This and the next are functions of their own, so that a wrong one is refused at its own clause.
pub(crate) fn fill(place: &mut [u8], s: &Sector)
    requires { length place.old ≡ 64 }
    ensures { place.new ≡ s.now }
{
    place.copy_from_slice(s);
}

// Zeroes the places of a block.
pub(crate) fn erase(places: &mut [u8])
    ensures { places.new ≡ replicate (length places.old) 0 }
{
    places.fill(0);
}
