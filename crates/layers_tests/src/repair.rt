// What repair answers.
use bottoms::{Card, Plain, Rotating};
use device::{Device, DeviceFault};
use layers::Mirror;
use std::test::Fail;

// The answers for a block that is lost on the first side, then repaired, then another on the second side, then lost on both; and for one that
// only the second side has.
#[test]
fn sides_written(rt: HostRuntime) -> Result<(), Fail> {
    let mut first = [0; 130];
    let mut second = [0; 771];
    let plain = Plain::open(&mut first, 2)?;
    let rotating = Rotating::open(&mut second, 3)?;
    let mut mirror = Mirror::new(plain, rotating);
    mirror.write(1, &[7; 64])?;
    mirror.a.mark(1)?;
    assert_eq!(rt; mirror.repair(1), Ok(1));
    assert_eq!(rt; mirror.repair(1), Ok(0));
    mirror.b.write(1, &[8; 64])?;
    assert_eq!(rt; mirror.repair(1), Ok(1));
    mirror.mark(1)?;
    assert_eq!(rt; mirror.repair(1), Err(DeviceFault::Lost(1)));
    assert_eq!(rt; mirror.repair(2), Err(DeviceFault::NoBlock(2)));
    Ok(())
}
