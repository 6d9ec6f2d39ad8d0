// The table of a cache's four lines. It is changed by value: each call makes a whole new one.
ghost use Rattle.std.specs.Prelude.{◌≡◌, ◌<◌, length};
ghost use Rattle.lines.specs.Lines.{Clean, Apart};

use crate::line::Line;
use device::{Device, Sector};

// Four lines, and the one whose turn it is to make room. An empty line holds only zero bytes, and no block stands in two lines.
#[derive(Clone, Copy)]
pub struct Table {
    pub lines: [Line; 4],
    pub turn: usize,
    ghost four: { length lines ≡ 4 },
    ghost turning: { turn < 4 },
    ghost clean: { Clean lines },
    ghost apart: { Apart lines },
}

impl Table {
    ghost use Rattle.std.specs.Prelude.{replicate, IfSome, None, slice_set};
    ghost use Rattle.device.specs.Blocks.{blank};
    ghost use Rattle.device.specs.Effects.{Steps};
    ghost use Rattle.lines.specs.Lines.{empty_line, OnlyIn, position, waiting_for, all_waiting};
    ghost use Rattle.lines.specs.Tables.{room, next_turn, lines_written, turn_written, evicted, lines_without};

    // Four empty lines, and this turn.
    fn empty(turn: usize) -> Table
        requires { turn < 4 }
        ensures lines { result.lines ≡ replicate 4 empty_line }
        ensures turn { result.turn ≡ turn }
    {
        Table {
            lines: [Line::empty(); 4],
            turn,
        }
    }

    // Four empty lines.
    pub fn new() -> Table
        ensures lines { result.lines ≡ replicate 4 empty_line }
        ensures turn { result.turn ≡ 0 }
    {
        Table::empty(0)
    }

    // The first line for this block, or the first empty one for None.
    fn find(&self, block: Option<u32>) -> Option<usize>
        ensures value { result ≡ position self.now.lines block }
        ensures within { IfSome result (λ i. i < 4) }
    {
        self.lines.iter().position(|line| line.block == block)
    }

    // The sector that waits for block n.
    pub fn sector_for(&self, n: u32) -> Option<Sector>
        ensures { result ≡ waiting_for self.now.lines n }
    {
        let i = self.find(Some(n))?;
        Some(self.lines[i].bytes)
    }

    // Writes the lines below in order.
    #[tactic(auto, using(crate::proofs::WritingBack::steps_one_more))]
    pub fn write_back<D: Device>(&self, below: &mut D)
        ensures { Steps D.Device (all_waiting self.now.lines) below.old below.new }
    {
        for line in &self.lines {
            line.write_back(below);
        }
    }

    // The line that a write of block n may take at once: the one that stands for n, else the first empty one.
    fn room(&self, n: u32) -> Option<usize>
        ensures { result ≡ room self.now n }
    {
        self.find(Some(n)).or(self.find(None))
    }

    // The line whose turn it is after a write for which there was this room. A `map_or` would take a closure that ignores its argument.
    fn turn_after(&self, room: Option<usize>) -> usize
        ensures value { result ≡ next_turn room self.now.turn }
        ensures within { result < 4 }
    {
        match room {
            Some(_) => self.turn,
            None => (self.turn + 1) % 4,
        }
    }

    // The table with another line i, which leaves it sound, and another turn.
    fn put(self, i: usize, line: Line, turn: usize) -> Table
        requires within { i < 4 }
        requires turning { turn < 4 }
        requires clean { line.block ≡ None → line.bytes ≡ blank }
        requires alone { OnlyIn self.lines i line.block }
        ensures lines { result.lines ≡ slice_set self.lines i line }
        ensures turn { result.turn ≡ turn }
    {
        let mut lines = self.lines;
        lines[i] = line;
        Table { lines, turn }
    }

    // The table with a sector for block n, and the line that had to make room for it.
    #[tactic(auto, using(crate::proofs::Lines::taken_within, crate::proofs::Lines::taken_only))]
    pub fn write(self, n: u32, s: &Sector) -> (Table, Line)
        ensures lines { result.0.lines ≡ lines_written self n s.now }
        ensures turn { result.0.turn ≡ turn_written self n }
        ensures leaves { result.1 ≡ evicted self n }
    {
        let room = self.room(n);
        let i = room.unwrap_or(self.turn);
        let left = self.lines[i].leaving(room);
        let table = self.put(i, Line::of(n, s), self.turn_after(room));
        (table, left)
    }

    // The table without a line for block n.
    pub fn without(self, n: u32) -> Table
        ensures lines { result.lines ≡ lines_without self n }
        ensures turn { result.turn ≡ self.turn }
    {
        let Some(i) = self.find(Some(n)) else {
            return self;
        };
        self.put(i, Line::empty(), self.turn)
    }

    // The table with all lines empty.
    pub fn emptied(self) -> Table
        ensures lines { result.lines ≡ replicate 4 empty_line }
        ensures turn { result.turn ≡ self.turn }
    {
        Table::empty(self.turn)
    }
}
