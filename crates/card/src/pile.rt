// The story of a pile: a cache over a mirror of a plain and a rotating card. So far only a test tells it.
use crate::seen::{Seen, sector_of};
use crate::trouble::Trouble;
use crate::{BLOCK, BLOCKS, NAME};
use bottoms::{Card, Plain, Rotating};
use device::{Device, blank_sector};
use layers::{Cache, Mirror, wipe_pile};
use std::alloc::Global;

type Pile<'a> = Cache<Mirror<Plain<'a>, Rotating<'a>>>;

// A pile, and the lines that tell what becomes of it.
#[derive(Drop)]
struct PileStory<'a> {
    pile: Pile<'a>,
    text: String,
}

impl PileStory<'_> {
    // Adds a line: what reading the block shows through the pile and on each card, how many sectors the cards hold beside that, and whether
    // a sector waits for the block.
    fn report(&mut self, label: &str) -> Result<(), Trouble> {
        let alloc = *self.text.allocator();
        let seen = Seen::read(&mut self.pile, BLOCK).to_string(alloc)?;
        let waits = if self.pile.waits(BLOCK) { "waits" } else { "" };
        let Mirror { a, b } = &mut self.pile.below;
        let plain = Seen::read(a, BLOCK).to_string(alloc)?;
        let rotating = Seen::read(b, BLOCK).to_string(alloc)?;
        let first = a.held_count(BLOCK)?;
        let second = b.held_count(BLOCK)?;
        writeln!(
            self.text,
            "  {label:<26}  {seen:<14}  {waits:<5}  {plain:<14}  {first}  {rotating:<14}  {second}"
        )?;
        Ok(())
    }

    // The name waits in a line while zeros are written below it, and the flush brings it back.
    fn comes_back(&mut self) -> Result<(), Trouble> {
        self.pile.write(BLOCK, &sector_of(NAME))?;
        self.report("the name is written")?;
        self.pile.below.write(BLOCK, &blank_sector())?;
        self.report("zeros are written below")?;
        self.pile.flush();
        self.report("the pile is flushed")
    }

    // One card loses the block, and the mirror repairs it from the other.
    fn repaired(&mut self) -> Result<(), Trouble> {
        self.pile.below.a.mark(BLOCK)?;
        self.report("the plain card loses it")?;
        let sides = self.pile.below.repair(BLOCK)?;
        writeln!(self.text, "  repaired, sides written: {sides}")?;
        self.report("the block is repaired")
    }

    // Zeros through the whole pile leave the name on a card. A wipe leaves it nowhere.
    fn wiped(&mut self) -> Result<(), Trouble> {
        self.pile.write(BLOCK, &blank_sector())?;
        self.pile.flush();
        self.report("zeros, and flushed")?;
        self.pile.write(BLOCK, &sector_of(NAME))?;
        self.report("the name is written again")?;
        wipe_pile(&mut self.pile, BLOCK)?;
        self.report("the block is wiped")?;
        self.pile.flush();
        self.report("the pile is flushed")
    }
}

// All three on a new pile, as text.
fn tell(alloc: Global) -> Result<String, Trouble> {
    let mut first = [0u8; 260];
    let mut second = [0u8; 1028];
    let plain = Plain::open(&mut first, BLOCKS)?;
    let rotating = Rotating::open(&mut second, BLOCKS)?;
    let mut story = PileStory {
        pile: Cache::new(Mirror::new(plain, rotating)),
        text: String::new(alloc),
    };
    story.comes_back()?;
    story.repaired()?;
    story.wiped()?;
    Ok(story.text)
}

// What the pile shows, whether a sector waits, and what each card shows and how much it holds beside that.
const EXPECTED: [&str; 10] = [
    "  the name is written         Margarete Onda  waits  zeros           0  zeros           0",
    "  zeros are written below     Margarete Onda  waits  zeros           0  zeros           0",
    "  the pile is flushed         Margarete Onda         Margarete Onda  0  Margarete Onda  0",
    "  the plain card loses it     Margarete Onda         refused with 9  1  Margarete Onda  0",
    "  repaired, sides written: 1",
    "  the block is repaired       Margarete Onda         Margarete Onda  0  Margarete Onda  0",
    "  zeros, and flushed          zeros                  zeros           0  zeros           1",
    "  the name is written again   Margarete Onda  waits  zeros           0  zeros           1",
    "  the block is wiped          zeros                  zeros           0  zeros           0",
    "  the pile is flushed         zeros                  zeros           0  zeros           0",
];

#[test]
fn each_step_of_the_pile(rt: HostRuntime) -> Result<(), Trouble> {
    let text = tell(rt.alloc())?;
    for (line, expected) in text.lines().zip(EXPECTED) {
        assert_eq!(rt; line, expected);
    }
    assert_eq!(rt; text.lines().count(), EXPECTED.len());
    Ok(())
}
