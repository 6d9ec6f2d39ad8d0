// What reading a block shows, for a person.
ghost use Rattle.std.specs.Prelude.{◌≡◌, []};
ghost use Rattle.device.specs.Operations.{Ran};
ghost use Rattle.card.specs.Seen.{seen_at, text_of, padded};

use device::{Device, DeviceFault, Sector, blank_sector};
use std::fmt;

// A sector, or why there is none to see.
#[derive(Drop)]
pub struct Seen(Result<Sector, DeviceFault>);

impl Seen {
    // What block n shows. The device is as it was.
    pub(crate) fn read<D: Device>(device: &mut D, n: u32) -> Seen
        ensures value { result ≡ seen_at (D.shown device.old) n }
        ensures effect { Ran [] (D.shown device.old) (D.held device.old) (D.shown device.new) (D.held device.new) }
    {
        let mut sector = blank_sector();
        Seen(device.read(n, &mut sector).and(Ok(sector)))
    }
}

// The bytes before the first zero.
fn text_in(sector: &Sector) -> &[u8]
    ensures { result.now ≡ text_of sector.now }
{
    let end = sector.iter().position(|b| *b == 0).unwrap_or(sector.len());
    &sector[..end]
}

impl fmt::Display for Seen {
    fn fmt<W: fmt::Write>(&self, f: &mut fmt::Formatter<W>) -> fmt::Result {
        match &self.0 {
            Ok(sector) => match std::str::from_utf8(text_in(sector)) {
                Ok("") => write!(f, "zeros"),
                Ok(text) => write!(f, "{text}"),
                Err(_) => write!(f, "bytes that are no text"),
            },
            Err(fault) => write!(f, "refused with {}", fault.ground()),
        }
    }
}

// The text as a sector, as much of it as there is room for, and zeros after it. No `From`: a sector is an array, and not a type of ours.
pub(crate) fn sector_of(text: &str) -> Sector
    ensures { result ≡ padded text.now }
{
    let mut sector = blank_sector();
    let room = text.len().min(sector.len());
    sector[..room].copy_from_slice(&text.as_bytes()[..room]);
    sector
}
