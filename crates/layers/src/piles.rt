// Piles of layers.
ghost use Rattle.std.specs.Prelude.{◌≡◌, ◌<◌, [], ◌∷◌, length};
ghost use Rattle.device.specs.Blocks.{if_block};
ghost use Rattle.device.specs.Answers.{answer_of, change_answer};
ghost use Rattle.device.specs.Operations.{wipe};
ghost use Rattle.device.specs.Effects.{Effect, KeepsNothing};
ghost use Rattle.lines.specs.Tables.{lines_without};
ghost use Rattle.layers.specs.Caching.{cached};
ghost use Rattle.layers.specs.Mirroring.{mirrored};

use crate::cache::Cache;
use crate::mirror::Mirror;
use device::{Device, DeviceFault};

// Wipes block n through a cache over a mirror. Neither side of the mirror then shows or holds anything of it.
pub fn wipe_pile<A: Device, B: Device>(
    pile: &mut Cache<Mirror<A, B>>,
    n: u32,
) -> Result<(), DeviceFault>
    ensures answer { answer_of result ≡ change_answer ((cached (mirrored A.Device B.Device)).shown pile.old) n }
    ensures effect { Effect (cached (mirrored A.Device B.Device)) (wipe n ∷ []) pile.old pile.new }
    ensures lines { pile.new.table.lines ≡ if_block ((mirrored A.Device B.Device).shown pile.old.below) n (lines_without pile.old.table n) pile.old.table.lines }
    ensures turn { pile.new.table.turn ≡ pile.old.table.turn }
    ensures below { Effect (mirrored A.Device B.Device) (wipe n ∷ []) pile.old.below pile.new.below }
    ensures first { n < length ((cached (mirrored A.Device B.Device)).shown pile.old) → KeepsNothing A.Device pile.new.below.a n }
    ensures second { n < length ((cached (mirrored A.Device B.Device)).shown pile.old) → KeepsNothing B.Device pile.new.below.b n }
{
    pile.wipe(n)
}
