// Why memory is refused as a card.
ghost use Rattle.std.specs.Prelude.{◌≡◌};
ghost use Rattle.bottoms.specs.Opening.{open_ground_of};

// The ground on which memory is no card.
#[derive(Clone, Copy, PartialEq, Eq, Debug)]
pub enum OpenFault {
    // the memory has a wrong length, or the count of blocks isn't 1 to 1,024
    WrongMemory,
}

impl OpenFault {
    // The number of the ground of refusal: the rules fix one for each ground, by which people and programs know it.
    pub fn ground(&self) -> u32
        ensures { result ≡ open_ground_of self.now }
    {
        match self {
            OpenFault::WrongMemory => 2,
        }
    }
}

// A refusal to open, which hands the memory back as it was. What is in the memory is not printed with it.
#[derive(Drop)]
#[derive_where(Debug)]
pub struct Refused<'a> {
    pub fault: OpenFault,
    #[derive_where(skip(Debug))]
    pub bytes: &'a mut [u8],
}
