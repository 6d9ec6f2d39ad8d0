// A line of a cache.
use device::{Device, Sector, blank_sector};

// Empty, or standing for one block with a sector that waits to be written below. The bytes stand beside the option, since an empty line has
// to hold only zeros, and nothing says what lies behind a `None`.
#[derive(Clone, Copy)]
pub struct Line {
    pub block: Option<u32>,
    pub bytes: Sector,
}

impl Line {
    ghost use Rattle.std.specs.Prelude.{◌≡◌};
    ghost use Rattle.device.specs.Effects.{Effect};
    ghost use Rattle.lines.specs.Lines.{empty_line, line_of, waiting};
    ghost use Rattle.lines.specs.Tables.{leaving};

    // The empty line.
    pub(crate) fn empty() -> Line
        ensures { result ≡ empty_line }
    {
        Line {
            block: None,
            bytes: blank_sector(),
        }
    }

    // The line in which a sector waits for block n.
    pub(crate) fn of(n: u32, s: &Sector) -> Line
        ensures { result ≡ line_of n s.now }
    {
        Line {
            block: Some(n),
            bytes: *s,
        }
    }

    // What has to make room where this line is taken. Where there was room that is the empty line, and no `None`: the contract of a table's
    // `write` says so, and an empty line writes nothing. A `map_or` would take a closure that ignores its argument.
    pub(crate) fn leaving(self, room: Option<usize>) -> Line
        ensures { result ≡ leaving room self }
    {
        match room {
            Some(_) => Line::empty(),
            None => self,
        }
    }

    // Writes the sector that waits in the line.
    pub fn write_back<D: Device>(&self, below: &mut D)
        ensures { Effect D.Device (waiting self.now) below.old below.new }
    {
        if let Some(n) = self.block {
            // a line past the count shows nowhere, and its write is refused without effect
            let _ = below.write(n, &self.bytes);
        }
    }
}
