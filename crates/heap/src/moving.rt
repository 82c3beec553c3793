// Moving: marked blocks go down to their new cells, and pointers with them. The work list is a table from a title's cell to its new cell.
ghost use Rattle.std.specs.Prelude.{◌≡◌, ℕ, ◌+◌, ◌<◌, ◌≤◌, List, length, pos, Ok, slice_index, slice_index_or};
ghost use Rattle.rules.specs.Arena.{desc, null_desc};
ghost use Rattle.arena.specs.Titles.{count};
ghost use Rattle.heap.specs.Walks.{Slid, Tiled, Tabled, Brought, Packed};
ghost use Rattle.heap.specs.Moves.{Hits, Ready, Relocating, Relocated, Prepared, Shifting};

use crate::blocks::{Block, Blocks};
use crate::descriptors::{field_cells, is_marked, is_pointer};
use arena::blocks::end_of;
use arena::extent::Extent;
use arena::faults::{HeapFault, Rule};
use arena::titles::{cell_of, new_title, pointer_at, title_of};
use cells::{Descriptor, Store};

// Writes the new cell of each marked title into the table, and gives the first cell that is free then.
pub fn layout<S: Store>(store: &S, extent: Extent, work: &mut [u32]) -> Result<u32, HeapFault>
    ensures { (ts : List ℕ) → Tiled (S.memory store.now) ts extent.bins extent.next → (S.memory store.now).figures.cells ≤ length work.old →
        ((t : ℕ) × (result ≡ Ok t) × Tabled (S.memory store.now) ts extent.bins extent.next extent.next t work.new) }
{
    let mut blocks = Blocks::of(extent)?;
    let mut to = extent.bins;
    while let Some(block) = blocks.step(store)? {
        if is_marked(block.title) {
            if block.at as usize >= work.len() {
                return Err(HeapFault::Unlawful(Rule::Titles, block.at));
            }
            work[block.at as usize] = to;
            to += block.cells;
        }
    }
    Ok(to)
}

// The new cell of a title, which the table has.
pub fn new_cell(work: &[u32], title: u32) -> Result<u32, HeapFault>
    ensures { title < length work.now → result ≡ Ok (slice_index work.now title) }
{
    work.get(title as usize)
        .copied()
        .ok_or(HeapFault::Unlawful(Rule::Titles, title))
}

// A value whose pointer moves by as much as its block.
pub fn forward<S: Store>(store: &S, d: Descriptor, work: &[u32]) -> Result<Descriptor, HeapFault>
    ensures plain { d.flags ≡ 0 → result ≡ Ok d }
    ensures moved { (q k : ℕ) → Hits (S.memory store.now) work.now d q k → result ≡ Ok (desc (pos (slice_index work.now q + k)) 16 d.kind) }
{
    if !is_pointer(d) {
        return Ok(d);
    }
    let (title, k) = title_of(store, cell_of(d)?)?;
    let to = new_cell(work, title)?;
    pointer_at(to.saturating_add(k), d.kind)
}

// Gives the fields of a block their new values.
pub fn relocate_block<S: Store>(store: &mut S, block: &Block, work: &[u32]) -> Result<(), HeapFault>
    ensures { block.now.at + count block.now.title < (S.memory store.old).figures.cells →
        ((k : ℕ) → k < count block.now.title → Ready (S.memory store.old) work.now ((S.memory store.old).descriptor (block.now.at + 1 + k))) →
        ((result ≡ Ok tt) × Relocating (S.memory store.old) work.now block.now.at (count block.now.title) (S.memory store.new)) }
{
    let (first, end) = field_cells(block.at, block.title)?;
    for cell in first..end {
        let d = store.descriptor(cell)?;
        if is_pointer(d) {
            let moved = forward(store, d, work)?;
            store.set_descriptor(cell, moved)?;
        }
    }
    Ok(())
}

// Gives every marked block its new values.
pub fn relocate<S: Store>(store: &mut S, extent: Extent, work: &[u32]) -> Result<(), HeapFault>
    ensures { (ts : List ℕ) → Tiled (S.memory store.old) ts extent.bins extent.next → Prepared (S.memory store.old) ts work.now →
        ((result ≡ Ok tt) × Relocated (S.memory store.old) ts work.now extent.bins extent.next extent.next (S.memory store.new)) }
{
    let mut blocks = Blocks::of(extent)?;
    while let Some(block) = blocks.step(store)? {
        if is_marked(block.title) {
            relocate_block(store, &block, work)?;
        }
    }
    Ok(())
}

// Gives every register its new value.
pub fn move_registers<S: Store>(
    store: &S,
    registers: &mut [Descriptor],
    work: &[u32],
) -> Result<(), HeapFault>
    ensures { ((i : ℕ) → i < length registers.old → Ready (S.memory store.now) work.now (slice_index_or registers.old i null_desc)) →
        ((result ≡ Ok tt) × Shifting (S.memory store.now) work.now registers.old (length registers.old) registers.new) }
{
    for register in registers.iter_mut() {
        *register = forward(store, *register, work)?;
    }
    Ok(())
}

// Moves `size` cells down, from `from` to `to`.
pub fn slide<S: Store>(store: &mut S, from: u32, to: u32, size: u32) -> Result<(), HeapFault>
    ensures { to ≤ from → from + size ≤ (S.memory store.old).figures.cells → ((result ≡ Ok tt) × Slid (S.memory store.old) from to size (S.memory store.new)) }
{
    if to > from || end_of(store, from, size).is_err() {
        return Err(HeapFault::Unlawful(Rule::Titles, from));
    }
    if to == from {
        return Ok(());
    }
    for k in 0..size {
        store.move_cell(from + k, to + k)?;
    }
    Ok(())
}

// Moves one block down and gives it its new title.
pub fn bring<S: Store>(store: &mut S, block: &Block, to: u32) -> Result<(), HeapFault>
    ensures { to ≤ block.now.at → 1 ≤ block.now.cells → block.now.at + block.now.cells ≤ (S.memory store.old).figures.cells → block.now.title.kind ≤ 65535 →
        ((result ≡ Ok tt) × Brought (S.memory store.old) block.now.title block.now.at to block.now.cells (S.memory store.new)) }
{
    let title = new_title(block.title, to)?;
    slide(store, block.at, to, block.cells)?;
    store.set_descriptor(to, title)?;
    Ok(())
}

// Moves every marked block down to its new cell, and takes the marks away.
pub fn pack<S: Store>(store: &mut S, extent: Extent, work: &[u32]) -> Result<(), HeapFault>
    ensures { (ts : List ℕ) (t : ℕ) → Tiled (S.memory store.old) ts extent.bins extent.next → (S.memory store.old).figures.cells ≤ length work.now →
        Tabled (S.memory store.old) ts extent.bins extent.next extent.next t work.now →
        ((result ≡ Ok tt) × Packed (S.memory store.old) ts extent.bins extent.next (S.memory store.new)) }
{
    let mut blocks = Blocks::of(extent)?;
    while let Some(block) = blocks.step(store)? {
        if is_marked(block.title) {
            let to = new_cell(work, block.at)?;
            bring(store, &block, to)?;
        }
    }
    Ok(())
}
