// Why a device refuses a call.
ghost use Rattle.std.specs.Prelude.{◌≡◌};
ghost use Rattle.device.specs.Answers.{ground_of, block_of};

// The ground of a refusal, with the block that it names.
#[derive(Clone, Copy, PartialEq, Eq, Debug)]
pub enum DeviceFault {
    // the block number is not below the count
    NoBlock(u32),
    // the block is lost
    Lost(u32),
}

impl DeviceFault {
    // The number of the ground of refusal: the rules fix one for each ground, by which people and programs know it.
    pub fn ground(&self) -> u32
        ensures { result ≡ ground_of self.now }
    {
        match self {
            DeviceFault::NoBlock(_) => 1,
            DeviceFault::Lost(_) => 9,
        }
    }

    // The block that was named.
    pub fn block(&self) -> u32
        ensures { result ≡ block_of self.now }
    {
        match self {
            DeviceFault::NoBlock(n) | DeviceFault::Lost(n) => *n,
        }
    }
}
