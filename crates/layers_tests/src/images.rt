// The calls of a pile, compared with the calls that should reach each of its cards: both leave the same bytes.
use bottoms::{Card, InPlace, Placement, Plain, Rotating, Rotation};
use device::{Device, DeviceFault, Sector, blank_sector};
use layers::{Cache, Mirror};
use std::test::Fail;

// One call of a device. A sector is written as 64 times one byte. The calls are data, since they are made to three types of device and a
// closure takes one.
#[derive(Clone, Copy)]
pub enum Call {
    Read(u32),
    Write(u32, u8),
    Wipe(u32),
    Mark(u32),
    Flush,
}

impl Call {
    // Makes the call, with this buffer for a read.
    fn apply<D: Device>(self, device: &mut D, buffer: &mut Sector) -> Result<(), DeviceFault> {
        match self {
            Call::Read(n) => device.read(n, buffer),
            Call::Write(n, byte) => device.write(n, &[byte; 64]),
            Call::Wipe(n) => device.wipe(n),
            Call::Mark(n) => device.mark(n),
            Call::Flush => {
                device.flush();
                Ok(())
            }
        }
    }
}

// How many of the calls are accepted, the last byte that was read, and the count of blocks.
#[derive(Clone, Copy, PartialEq, Eq, Debug)]
struct Answers {
    accepted: usize,
    read: u8,
    count: u32,
}

// Makes the calls, one after the other.
fn run<D: Device>(device: &mut D, calls: &[Call]) -> Answers {
    let mut buffer = blank_sector();
    let accepted = calls
        .iter()
        .map(|call| call.apply(device, &mut buffer))
        .filter(|answer| answer.is_ok())
        .count();
    Answers {
        accepted,
        read: buffer[63],
        count: device.count(),
    }
}

// The same on a new pile over cards of six blocks, and on one card.
fn on_pile(calls: &[Call], first: &mut [u8], second: &mut [u8]) -> Result<Answers, Fail> {
    let plain = Plain::open(first, 6)?;
    let rotating = Rotating::open(second, 6)?;
    let mut pile = Cache::new(Mirror::new(plain, rotating));
    Ok(run(&mut pile, calls))
}

fn on_card<P: Placement>(calls: &[Call], bytes: &mut [u8]) -> Result<Answers, Fail> {
    let mut card = Card::<P>::open(bytes, 6)?;
    Ok(run(&mut card, calls))
}

// Whether so many calls of the pile are accepted, the last of them that read gave 64 times this byte, and both cards are left as the calls
// below leave them alone.
fn alike(calls: &[Call], accepted: usize, read: u8, below: &[Call]) -> Result<bool, Fail> {
    let mut plain = [0; 390];
    let mut rotating = [0; 1542];
    let answered = on_pile(calls, &mut plain, &mut rotating)?;
    let mut plain_alone = [0; 390];
    on_card::<InPlace>(below, &mut plain_alone)?;
    let mut rotating_alone = [0; 1542];
    on_card::<Rotation>(below, &mut rotating_alone)?;
    let expected = Answers {
        accepted,
        read,
        count: 6,
    };
    Ok(answered == expected && plain == plain_alone && rotating == rotating_alone)
}

// Lines 0 to 3 are taken, 0 and 1 make room, 3 is wiped and taken again, 2 is lost. The reads of a lost block and past the count are refused.
#[test]
fn pile_and_cards(rt: HostRuntime) -> Result<(), Fail> {
    let calls = [
        Call::Write(0, 1),
        Call::Write(1, 2),
        Call::Write(2, 3),
        Call::Write(3, 4),
        Call::Write(1, 5),
        Call::Read(1),
        Call::Write(4, 6),
        Call::Write(5, 7),
        Call::Wipe(3),
        Call::Write(0, 8),
        Call::Mark(2),
        Call::Read(2),
        Call::Write(6, 9),
        Call::Flush,
        Call::Wipe(5),
    ];
    let below = [
        Call::Write(0, 1),
        Call::Write(1, 5),
        Call::Wipe(3),
        Call::Mark(2),
        Call::Write(4, 6),
        Call::Write(5, 7),
        Call::Write(0, 8),
        Call::Wipe(5),
    ];
    assert!(rt; alike(&calls, 13, 5, &below)?);
    assert!(rt; alike(&calls[..13], 11, 5, &below[..4])?);
    Ok(())
}
