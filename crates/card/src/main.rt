// Shows what a card still holds: a name is written to a block, then "erased" with zeros, lost, wiped or replaced.
#![tactic(auto)]

#[cfg(test)]
mod pile;
mod seen;
mod trouble;

use bottoms::{Card, InPlace, Placement, Rotation};
use device::{Device, DeviceFault, blank_sector, replace};
use seen::{Seen, sector_of};
use std::process::ExitCode;
use trouble::Trouble;

const BLOCKS: u32 = 4;

// the block that the name goes to
const BLOCK: u32 = 2;

const NAME: &str = "Margarete Onda";

// A card, and the runtime that prints what becomes of it. Each has a lifetime of its own: with one for both, the borrow check doesn't cover
// the function that makes a story.
#[derive(Drop)]
struct Story<'r, 'c, R, P> {
    rt: &'r R,
    card: Card<'c, P>,
}

impl<R: Print + Alloc, P: Placement> Story<'_, '_, R, P> {
    // Prints what reading the block shows, and how many sectors the card holds for it beside that. Only text is padded to a width, so what
    // is shown becomes text first.
    fn report(&mut self, label: &str) -> Result<(), Trouble> {
        let seen = Seen::read(&mut self.card, BLOCK).to_string(self.rt.alloc())?;
        let held = self.card.held_count(BLOCK)?;
        println!(self.rt; "  {label:<26}  {seen:<16}  {held}")?;
        Ok(())
    }

    // The first step of each story.
    fn written(&mut self) -> Result<(), Trouble> {
        self.card.write(BLOCK, &sector_of(NAME))?;
        self.report("the name is written")
    }

    // The name is written, then taken out of sight, then the block is wiped.
    fn erased<F: FnOnce(&mut Card<P>) -> Result<(), DeviceFault>>(
        &mut self,
        label: &str,
        erase: F,
    ) -> Result<(), Trouble>
        requires { F.IsAlwaysCallable erase }
    {
        self.written()?;
        erase(&mut self.card)?;
        self.report(label)?;
        self.card.wipe(BLOCK)?;
        self.report("the block is wiped")
    }

    // The name is replaced: the block is wiped before another is written.
    fn replaced(&mut self) -> Result<(), Trouble> {
        self.written()?;
        replace(&mut self.card, BLOCK, &sector_of("Tomas Ibarra"))?;
        self.report("another replaces it")
    }

    // All three: the name is overwritten with zeros, lost, and replaced.
    fn tell(&mut self) -> Result<(), Trouble> {
        self.erased(
            "zeros are written over it",
            |card| card.write(BLOCK, &blank_sector()),
        )?;
        self.erased("the block is marked lost", |card| card.mark(BLOCK))?;
        self.replaced()
    }
}

// The stories of a card of this kind on these bytes.
fn on_card<P: Placement>(
    rt: &(impl Print + Alloc),
    kind: &str,
    bytes: &mut [u8],
) -> Result<(), Trouble> {
    println!(rt; "On a {kind:<25}reading shows     sectors also held")?;
    let card = Card::<P>::open(bytes, BLOCKS)?;
    Story { rt, card }.tell()
}

fn run(rt: &(impl Print + Alloc)) -> Result<(), Trouble> {
    println!(rt; "A name is written to block {BLOCK} of a card and erased.")?;
    on_card::<InPlace>(rt, "plain card", &mut [0; 260])?;
    on_card::<Rotation>(rt, "rotating card", &mut [0; 1028])?;
    println!(rt; "Zeros take the name out of sight. Only a wipe takes it off the card.")?;
    Ok(())
}

fn main(rt: HostRuntime) -> ExitCode {
    match run(&rt) {
        Ok(()) => ExitCode::SUCCESS,
        Err(trouble) => {
            let _ = eprintln!(rt; "card: {trouble}");
            ExitCode::FAILURE
        }
    }
}
