// The order in which a cache writes its lines below.
use bottoms::{Card, Plain};
use device::{Device, DeviceFault, Sector};
use layers::Cache;
use std::test::Fail;

// A device that notes which blocks are written to it, one after the other, as far as its list has room.
#[derive(Drop)]
pub struct Noted<D: Device> {
    below: D,
    written: Vec<u32>,
}

impl<D: Device> Device for Noted<D> {
    ghost shown = { λ d. D.Device.shown d.below };

    ghost held = { λ d. D.Device.held d.below };

    ghost settled = { λ d. D.Device.settled d.below };

    fn count(&self) -> u32 {
        self.below.count()
    }

    fn read(&mut self, n: u32, buf: &mut Sector) -> Result<(), DeviceFault> {
        self.below.read(n, buf)
    }

    fn write(&mut self, n: u32, s: &Sector) -> Result<(), DeviceFault> {
        // a write can't fail for memory: a list that is full stays so, and is longer than the one that the test expects
        if self.written.len() < self.written.capacity() {
            self.written.push(n).unwrap();
        }
        self.below.write(n, s)
    }

    fn wipe(&mut self, n: u32) -> Result<(), DeviceFault> {
        self.below.wipe(n)
    }

    fn mark(&mut self, n: u32) -> Result<(), DeviceFault> {
        self.below.mark(n)
    }

    fn flush(&mut self) {
        self.below.flush()
    }
}

// Five sectors are put into the four lines of a cache, then it is flushed. Block 3 makes room for block 5; the flush then goes from line 0 to
// line 3.
#[test]
fn lines_in_order(rt: HostRuntime) -> Result<(), Fail> {
    let mut bytes = [0; 390];
    let mut cache = Cache::new(Noted {
        below: Plain::open(&mut bytes, 6)?,
        written: Vec::with_capacity(rt.alloc(), 8)?,
    });
    for n in [3, 1, 2, 0, 5] {
        cache.write(n, &[7; 64])?;
    }
    cache.flush();
    assert_eq!(rt; cache.below.written.as_slice(), [3, 5, 1, 2, 0].as_slice());
    Ok(())
}
