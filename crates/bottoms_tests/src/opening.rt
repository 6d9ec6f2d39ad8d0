// Which memory opens as a card.
use bottoms::{Card, InPlace, Placement, Plain, Rotating, Rotation};
use device::Device;
use std::alloc::{AllocError, Global};
use std::test::Fail;

// How many blocks so many bytes have as a card, or the ground on which they are refused, by its number, which is what a test has to compare.
fn opened<P: Placement>(
    heap: Global,
    len: usize,
    count: u32,
) -> Result<Result<u32, u32>, AllocError> {
    let mut memory = vec![in heap; 0u8; len]?;
    Ok(match Card::<P>::open(memory.as_mut_slice(), count) {
        Ok(card) => Ok(card.count()),
        Err(refused) => Err(refused.fault.ground()),
    })
}

// A length, a count of blocks, and what opening such memory answers.
type Case = (usize, u32, Result<u32, u32>);

// The first of the cases in which opening answers otherwise.
fn differs<P: Placement>(heap: Global, cases: &[Case]) -> Result<Option<Case>, AllocError> {
    for &case in cases {
        let (len, count, answer) = case;
        if opened::<P>(heap, len, count)? != answer {
            return Ok(Some(case));
        }
    }
    Ok(None)
}

// The two cards by their own names.
#[test]
fn names_of_the_cards(rt: HostRuntime) {
    let mut plain = [0; 65];
    assert!(rt; Plain::open(&mut plain, 1).is_ok());
    let mut rotating = [0; 257];
    assert!(rt; Rotating::open(&mut rotating, 1).is_ok());
}

#[test]
fn plain_memory(rt: HostRuntime) -> Result<(), Fail> {
    let cases = [
        (65, 1, Ok(1)),
        (66_560, 1024, Ok(1024)),
        (64, 1, Err(2)),
        (66_625, 1025, Err(2)),
        (0, 0, Err(2)),
    ];
    assert_eq!(rt; differs::<InPlace>(rt.alloc(), &cases)?, None);
    Ok(())
}

#[test]
fn rotating_memory(rt: HostRuntime) -> Result<(), Fail> {
    let cases = [
        (257, 1, Ok(1)),
        (263_168, 1024, Ok(1024)),
        (256, 1, Err(2)),
        (263_425, 1025, Err(2)),
        (257, 2, Err(2)),
    ];
    assert_eq!(rt; differs::<Rotation>(rt.alloc(), &cases)?, None);
    Ok(())
}
