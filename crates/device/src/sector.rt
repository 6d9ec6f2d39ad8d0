// Sectors, the unit that is read and written.
ghost use Rattle.std.specs.Prelude.{◌≡◌};
ghost use Rattle.device.specs.Blocks.{blank};

// The 64 bytes of a sector.
pub type Sector = [u8; 64];

// The sector of zeros.
pub fn blank_sector() -> Sector
    ensures { result ≡ blank }
{
    [0; 64]
}
