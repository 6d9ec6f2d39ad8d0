// What can go wrong in the program.
ghost use Rattle.std.specs.Prelude.{◌≡◌};
ghost use Rattle.card.specs.declared.trouble.Trouble.TheVariants.{Open, Device, Io, Memory};

use bottoms::{OpenFault, Refused};
use device::DeviceFault;
use std::alloc::AllocError;
use std::{fmt, io};

// A refusal of a card or of a call, or a failure of the machine.
#[derive(Debug, Drop)]
pub enum Trouble {
    Open(OpenFault),
    Device(DeviceFault),
    Io(io::Error),
    Memory,
}

// The conversions are written by hand: a derived one gives no `from_gives`, so the promise of each would be lost.
impl From<Refused<'_>> for Trouble {
    ghost from_gives = { λ refusal r. r ≡ Open refusal.fault };

    fn from(refused: Refused<'_>) -> Trouble {
        Trouble::Open(refused.fault)
    }
}

impl From<DeviceFault> for Trouble {
    ghost from_gives = { λ fault r. r ≡ Device fault };

    fn from(fault: DeviceFault) -> Trouble {
        Trouble::Device(fault)
    }
}

impl From<AllocError> for Trouble {
    ghost from_gives = { λ _ r. r ≡ Memory };

    fn from(_: AllocError) -> Trouble {
        Trouble::Memory
    }
}

impl From<io::Error> for Trouble {
    ghost from_gives = { λ error r. r ≡ Io error };

    fn from(error: io::Error) -> Trouble {
        Trouble::Io(error)
    }
}

impl fmt::Display for Trouble {
    fn fmt<W: fmt::Write>(&self, f: &mut fmt::Formatter<W>) -> fmt::Result {
        match self {
            Trouble::Open(fault) => write!(f, "the memory is refused with {}", fault.ground()),
            Trouble::Device(fault) => write!(
                f,
                "block {} is refused with {}",
                fault.block(),
                fault.ground()
            ),
            Trouble::Io(error) => write!(f, "{error}"),
            Trouble::Memory => write!(f, "there is no memory left"),
        }
    }
}
