// How a card keeps a block: so many places of 64 bytes, and a state byte that says which of them is shown.
ghost use Rattle.std.specs.Prelude.{◌≡◌, ◌≤◌};
ghost use Rattle.bottoms.specs.Formats.{Format, Lawful, plain, rotating};
ghost use Rattle.std.proofs.Common.{rules};

// What a card asks of the way its blocks are kept. A state is the byte that lies on the card, and no enum, since the format fixes what each
// of its values means.
pub trait Placement: Copy + Default {
    // the places of a block, and what its state says
    ghost format: { Format };

    // How many places a block has: at most four, so that no offset into a card overflows.
    fn places(&self) -> usize
        ensures count { result ≡ format.places }
        ensures few { result ≤ 4 };

    // The place that a state shows; none where the block is lost.
    fn shown(&self, state: u8) -> Option<usize>
        ensures { result ≡ format.shows state };

    // The place that a write fills, which is the state after it.
    fn next(&self, state: u8) -> u8
        ensures { result ≡ format.next state };

    // The state after a mark.
    fn marked(&self, state: u8) -> u8
        ensures { result ≡ format.marked state };

    // what is written is shown, what is marked is lost, what is wiped shows its first place
    ghost lawful: { Lawful format };
}

// the state that a mark leaves on a plain card
const LOST: u8 = 1;

// One place, which is written over. State 0 is sound, and any other is lost.
#[derive(Clone, Copy, Default)]
pub struct InPlace;

impl Placement for InPlace {
    ghost format = { plain };

    ghost lawful = { Prim.search rules };

    fn places(&self) -> usize {
        1
    }

    fn shown(&self, state: u8) -> Option<usize> {
        (state == 0).then_some(0)
    }

    fn next(&self, _state: u8) -> u8 {
        0
    }

    fn marked(&self, _state: u8) -> u8 {
        LOST
    }
}

// Four places, filled in turn. The current one is the state mod 4, and the block is lost from state 4 on.
#[derive(Clone, Copy, Default)]
pub struct Rotation;

impl Placement for Rotation {
    ghost format = { rotating };

    ghost lawful = { Prim.search rules };

    fn places(&self) -> usize {
        4
    }

    fn shown(&self, state: u8) -> Option<usize> {
        (state < 4).then_some(usize::from(state))
    }

    fn next(&self, state: u8) -> u8 {
        (state % 4 + 1) % 4
    }

    fn marked(&self, state: u8) -> u8 {
        if state < 4 { state + 4 } else { state }
    }
}
