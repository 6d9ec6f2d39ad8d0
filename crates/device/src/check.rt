// Block numbers, checked against a count.
ghost use Rattle.std.specs.Prelude.{◌≡◌, ◌<◌, ◌≤◌, MatchResult};
ghost use Rattle.device.specs.declared.fault.DeviceFault.TheVariants.{NoBlock};

use crate::fault::DeviceFault;

// Refuses a block number that is not below the count. Callers repeat the clause, each with its own count, since it is about the answer and
// not about a value that could carry it.
pub fn check_block(count: u32, n: u32) -> Result<(), DeviceFault>
    ensures { MatchResult result (λ _. n < count) (λ f. (count ≤ n) × (f ≡ NoBlock n)) }
{
    if n < count {
        Ok(())
    } else {
        Err(DeviceFault::NoBlock(n))
    }
}
