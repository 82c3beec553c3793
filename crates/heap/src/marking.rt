// Marking: what the registers and the strings reach gets the mark.
ghost use Rattle.std.specs.Prelude.{◌≡◌, ℕ, ◌<◌, ◌≤◌, ◌⊎◌, List, length, Ok, MatchOption, slice_index, slice_index_or};
ghost use Rattle.cells.specs.Meaning.{Memory};
ghost use Rattle.rules.specs.Arena.{Arena, null_desc};
ghost use Rattle.rules.specs.Lists.{In};
ghost use Rattle.rules.specs.Model.{Model};
ghost use Rattle.arena.specs.Titles.{count};
ghost use Rattle.heap.specs.Marks.{Valued, Queue, Added, Visited, Scanned, Marked, Registered, Holding};
ghost use Rattle.heap.specs.Regeneration.{Shown, Traced};
ghost use Rattle.heap.specs.Walks.{Tiled, Searched};

use crate::blocks::{Block, Blocks};
use crate::descriptors::{field_cells, holds, is_marked, is_pointer, is_string};
use arena::extent::Extent;
use arena::faults::{HeapFault, Rule};
use arena::titles::{cell_of, marked, title_of};
use cells::{Descriptor, Store};

// A queue of marked titles, none twice, that only grows: the entries of a lent list below the tail.
#[derive(Drop)]
struct WorkList<'w> {
    titles: &'w mut [u32],
    tail: usize,
}

impl WorkList<'_> {
    // Marks a title and puts it at the end, unless it is marked.
    fn push<S: Store>(&mut self, store: &mut S, title: u32) -> Result<(), HeapFault>
        ensures pushed { (m : Memory) (ts : List ℕ) → Queue m ts self.old.titles.now self.old.tail (S.memory store.old) → In title ts →
            ((result ≡ Ok tt) × Added m ts self.old.titles.now self.old.tail title self.new.titles.now self.new.tail (S.memory store.new)) }
        ensures same_list { self.new.titles.ghost_name ≡ self.old.titles.ghost_name }
    {
        let t = store.descriptor(title)?;
        if is_marked(t) {
            return Ok(());
        }
        if self.tail >= self.titles.len() {
            return Err(HeapFault::Unlawful(Rule::Titles, title));
        }
        store.set_descriptor(title, marked(t))?;
        self.titles[self.tail] = title;
        self.tail += 1;
        Ok(())
    }

    // Marks and queues what a value points at.
    #[inline(always)]
    fn visit<S: Store>(&mut self, store: &mut S, d: Descriptor) -> Result<(), HeapFault>
        ensures visited { (m : Memory) (ts : List ℕ) → Queue m ts self.old.titles.now self.old.tail (S.memory store.old) → Valued m ts d →
            ((result ≡ Ok tt) × Visited m ts self.old.titles.now self.old.tail d self.new.titles.now self.new.tail (S.memory store.new)) }
        ensures same_list { self.new.titles.ghost_name ≡ self.old.titles.ghost_name }
    {
        if !is_pointer(d) {
            return Ok(());
        }
        let (title, _) = title_of(store, cell_of(d)?)?;
        self.push(store, title)
    }

    // Marks and queues what the fields of a block point at.
    fn scan<S: Store>(&mut self, store: &mut S, title: u32) -> Result<(), HeapFault>
        ensures scanned { (m : Memory) (ts : List ℕ) → Queue m ts self.old.titles.now self.old.tail (S.memory store.old) → In title ts →
            ((result ≡ Ok tt) × Scanned m ts title (count (m.descriptor title)) self.old.titles.now self.old.tail self.new.titles.now self.new.tail (S.memory store.new)) }
        ensures same_list { self.new.titles.ghost_name ≡ self.old.titles.ghost_name }
    {
        let (first, end) = field_cells(title, store.descriptor(title)?)?;
        for cell in first..end {
            let d = store.descriptor(cell)?;
            self.visit(store, d)?;
        }
        Ok(())
    }

    // The title at one place of the queue.
    fn get(&self, place: usize) -> Option<u32>
        ensures { MatchOption result (self.now.tail ≤ place ⊎ length self.now.titles.now ≤ place) (λ t. (place < self.now.tail) × (t ≡ slice_index self.now.titles.now place)) }
    {
        if place < self.tail {
            self.titles.get(place).copied()
        } else {
            None
        }
    }

    // Takes each title in turn, until all that is reached is marked.
    fn drain<S: Store>(&mut self, store: &mut S) -> Result<(), HeapFault>
        ensures drained { (m : Memory) (ts : List ℕ) → Queue m ts self.old.titles.now self.old.tail (S.memory store.old) →
            ((result ≡ Ok tt) × Marked m ts self.old.titles.now self.old.tail self.new.titles.now self.new.tail (S.memory store.new)) }
        ensures same_list { self.new.titles.ghost_name ≡ self.old.titles.ghost_name }
    {
        for place in 0..self.titles.len() {
            let Some(title) = self.get(place) else {
                break;
            };
            self.scan(store, title)?;
        }
        Ok(())
    }

    // Marks and queues what the registers point at.
    fn add_registers<S: Store>(
        &mut self,
        store: &mut S,
        registers: &[Descriptor],
    ) -> Result<(), HeapFault>
        ensures added { (m : Memory) (ts : List ℕ) → Queue m ts self.old.titles.now self.old.tail (S.memory store.old) →
            ((i : ℕ) → i < length registers.now → Valued m ts (slice_index_or registers.now i null_desc)) →
            ((result ≡ Ok tt) × Registered m ts registers.now (length registers.now) self.old.titles.now self.old.tail self.new.titles.now self.new.tail (S.memory store.new)) }
        ensures same_list { self.new.titles.ghost_name ≡ self.old.titles.ghost_name }
    {
        for d in registers {
            self.visit(store, *d)?;
        }
        Ok(())
    }

    // Marks and queues a string whose value or label is not null.
    fn add_string<S: Store>(&mut self, store: &mut S, block: &Block) -> Result<(), HeapFault>
        ensures added { (m : Memory) (ts : List ℕ) → Queue m ts self.old.titles.now self.old.tail (S.memory store.old) → In block.now.at ts →
            block.now.title ≡ (S.memory store.old).descriptor block.now.at →
            ((result ≡ Ok tt) × Holding m block.now.at self.old.titles.now self.old.tail ts self.new.titles.now self.new.tail (S.memory store.new)) }
        ensures same_list { self.new.titles.ghost_name ≡ self.old.titles.ghost_name }
    {
        if !is_string(block.title) {
            return Ok(());
        }
        let value = store.descriptor(block.at + 1)?;
        let label = store.descriptor(block.at + 2)?;
        if !holds(value, label) {
            return Ok(());
        }
        self.push(store, block.at)
    }

    // Marks and queues every string whose value or label is not null.
    fn add_strings<S: Store>(&mut self, store: &mut S, extent: Extent) -> Result<(), HeapFault>
        ensures added { (m : Memory) (ts : List ℕ) → Tiled m ts extent.bins extent.next → Queue m ts self.old.titles.now self.old.tail (S.memory store.old) →
            ((result ≡ Ok tt) × Searched m ts extent.next extent.next self.old.titles.now self.old.tail self.new.titles.now self.new.tail (S.memory store.new)) }
        ensures same_list { self.new.titles.ghost_name ≡ self.old.titles.ghost_name }
    {
        let mut blocks = Blocks::of(extent)?;
        while let Some(block) = blocks.step(store)? {
            self.add_string(store, &block)?;
        }
        Ok(())
    }
}

// Marks all that the registers and the strings that hold something reach; the list has the marked titles then.
pub fn mark<S: Store>(
    store: &mut S,
    registers: &[Descriptor],
    extent: Extent,
    work: &mut [u32],
) -> Result<(), HeapFault>
    ensures { (m : Model) (a : Arena) → Shown m a extent.bins extent.next registers.now work.old (S.memory store.old) →
        ((result ≡ Ok tt) × Traced m a (S.memory store.old) registers.now extent.bins extent.next work.new (S.memory store.new)) }
{
    let mut queue = WorkList {
        titles: work,
        tail: 0,
    };
    queue.add_registers(store, registers)?;
    queue.add_strings(store, extent)?;
    queue.drain(store)
}
