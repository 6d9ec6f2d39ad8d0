// What the calls leave.
use bottoms::{Card, InPlace, Placement, Rotation};
use device::{Device, DeviceFault, blank_sector};
use std::test::Fail;

// Sectors held for the block after a sector, after a blank one over it, and after a wipe.
fn held<P: Placement>(memory: &mut [u8]) -> Result<(usize, usize, usize), Fail> {
    let mut card = Card::<P>::open(memory, 1)?;
    card.write(0, &[7; 64])?;
    let written = card.held_count(0)?;
    card.write(0, &blank_sector())?;
    let blanked = card.held_count(0)?;
    card.wipe(0)?;
    Ok((written, blanked, card.held_count(0)?))
}

#[test]
fn blank_over_a_sector(rt: HostRuntime) -> Result<(), Fail> {
    let mut plain = [0; 65];
    assert_eq!(rt; held::<InPlace>(&mut plain)?, (0, 0, 0));
    let mut rotating = [0; 257];
    assert_eq!(rt; held::<Rotation>(&mut rotating)?, (0, 1, 0));
    Ok(())
}

// The answers of a mark, of a read of the lost block, and of a write past the count; and a byte of the buffer after the read.
fn refusals<P: Placement>(memory: &mut [u8]) -> Result<([Result<(), DeviceFault>; 3], u8), Fail> {
    let mut card = Card::<P>::open(memory, 2)?;
    let mut buffer = [5; 64];
    let answers = [
        card.mark(1),
        card.read(1, &mut buffer),
        card.write(2, &blank_sector()),
    ];
    Ok((answers, buffer[63]))
}

#[test]
fn refused_blocks(rt: HostRuntime) -> Result<(), Fail> {
    let expected = (
        [
            Ok(()),
            Err(DeviceFault::Lost(1)),
            Err(DeviceFault::NoBlock(2)),
        ],
        5,
    );
    let mut plain = [0; 130];
    assert_eq!(rt; refusals::<InPlace>(&mut plain)?, expected);
    let mut rotating = [0; 514];
    assert_eq!(rt; refusals::<Rotation>(&mut rotating)?, expected);
    Ok(())
}

// Three writes, a mark and a fourth write to the first of two blocks.
fn turns<P: Placement>(memory: &mut [u8]) -> Result<(), Fail> {
    let mut card = Card::<P>::open(memory, 2)?;
    card.write(0, &[1; 64])?;
    card.write(0, &[2; 64])?;
    card.write(0, &[3; 64])?;
    card.mark(0)?;
    card.write(0, &[4; 64])?;
    Ok(())
}

// The state bytes, and the last byte of each block's sector.
#[test]
fn bytes_of_the_plain_card(rt: HostRuntime) -> Result<(), Fail> {
    let mut memory = [0; 130];
    turns::<InPlace>(&mut memory)?;
    assert_eq!(rt; [memory[0], memory[1]], [0, 0]);
    assert_eq!(rt; [memory[65], memory[129]], [4, 0]);
    Ok(())
}

// The state bytes, the last byte of each place of the first block, and that of the second block's first place.
#[test]
fn bytes_of_the_rotating_card(rt: HostRuntime) -> Result<(), Fail> {
    let mut memory = [0; 514];
    turns::<Rotation>(&mut memory)?;
    assert_eq!(rt; [memory[0], memory[1]], [0, 0]);
    assert_eq!(rt;
        [memory[65], memory[129], memory[193], memory[257]],
        [4, 1, 2, 3]
    );
    assert_eq!(rt; memory[321], 0);
    Ok(())
}
