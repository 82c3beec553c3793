// The walk over the blocks. Between its steps the store may change.
ghost use Rattle.std.specs.Prelude.{◌≤◌};

use arena::extent::Extent;
use arena::faults::{HeapFault, Rule};
use arena::titles::cells_of;
use cells::{Descriptor, MOST_CELLS, Store};

// The walk stands at a cell, and goes up to the end.
#[derive(Drop)]
pub struct Blocks {
    at: u32,
    end: u32,
    ghost few: { end ≤ 65535 },
}

// A block: the cell of its title, the title, and how many cells it has.
#[derive(Clone, Copy)]
pub struct Block {
    pub at: u32,
    pub title: Descriptor,
    pub cells: u32,
    ghost low: { at ≤ 65535 },
    ghost short: { cells ≤ 65540 },
}

impl Blocks {
    ghost use Rattle.std.specs.Prelude.{◌≡◌, ℕ, ◌<◌, List, MatchResult};
    ghost use Rattle.cells.specs.Meaning.{Memory};
    ghost use Rattle.heap.specs.Blocks.{Standing, Walked, Passed};

    // The walk from the bins up to the first free cell.
    pub fn of(extent: Extent) -> Result<Blocks, HeapFault>
        ensures { MatchResult result (λ w. (w.at ≡ extent.bins) × (w.end ≡ extent.next)) (λ e. 65535 < extent.next) }
    {
        if extent.next > MOST_CELLS {
            return Err(HeapFault::Unlawful(Rule::Next, 0));
        }
        Ok(Blocks {
            at: extent.bins,
            end: extent.next,
        })
    }

    // The block at which the walk stands, unless it is over; the walk then stands behind that block.
    pub fn step<S: Store>(&mut self, store: &S) -> Result<Option<Block>, HeapFault>
        ensures walked { Walked (S.memory store.now) self.old result self.new }
        ensures passed { (o : Memory) (ts : List ℕ) (bins end : ℕ) → Standing o ts bins end self.old (S.memory store.now) → Passed o ts end self.old result }
    {
        if self.at >= self.end {
            return Ok(None);
        }
        let at = self.at;
        let title = store.descriptor(at)?;
        let cells = cells_of(title, store.places())?;
        self.at += cells;
        Ok(Some(Block { at, title, cells }))
    }
}
