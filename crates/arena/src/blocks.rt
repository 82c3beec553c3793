// Blocks: a new one at the first free cell.
ghost use Rattle.std.specs.Prelude.{◌≡◌, ◌+◌, ◌<◌, ◌≤◌, length, pos, Ok, Err};
ghost use Rattle.cells.specs.Meaning.{FitDescriptor};
ghost use Rattle.rules.specs.Model.{Model, block};
ghost use Rattle.rules.specs.Arena.{Arena, Shows, desc};
ghost use Rattle.arena.specs.declared.faults.HeapFault.TheVariants.{NoRoom};
ghost use Rattle.arena.specs.Blocks.{fit_make, Filled, Headed, Made};
ghost use Rattle.arena.specs.Growth.{add_block, arena_with_block, Grown};

use crate::faults::HeapFault;
use crate::titles::{null_value, with_cell};
use crate::{FIRST_TYPE, LAST_TYPE, MOST_FIELDS, TITLE};
use cells::{Descriptor, Store};

// Whether a block can have n fields and this type.
pub fn fit(n: u32, kind: u32) -> Result<(), HeapFault>
    ensures { result ≡ fit_make n kind }
{
    if (1..=MOST_FIELDS).contains(&n) && (FIRST_TYPE..=LAST_TYPE).contains(&kind) {
        Ok(())
    } else {
        Err(HeapFault::BadMake)
    }
}

// The first cell after n cells from `at` on, if the store has so many.
pub fn end_of<S: Store>(store: &S, at: u32, n: u32) -> Result<u32, HeapFault>
    ensures room { at + n ≤ (S.memory store.now).figures.cells → result ≡ Ok (at + n) }
    ensures full { (S.memory store.now).figures.cells < at + n → result ≡ Err NoRoom }
{
    let cells = store.cells();
    at.checked_add(n)
        .filter(|end| *end <= cells)
        .ok_or(HeapFault::NoRoom)
}

// Writes one descriptor into n cells.
pub fn fill<S: Store>(store: &mut S, at: u32, n: u32, d: Descriptor) -> Result<(), HeapFault>
    ensures { at + n ≤ (S.memory store.old).figures.cells → FitDescriptor (S.memory store.old).figures d →
        ((result ≡ Ok tt) × Filled (S.memory store.old) at n d (S.memory store.new)) }
{
    let end = end_of(store, at, n)?;
    for cell in at..end {
        store.set_descriptor(cell, d)?;
    }
    Ok(())
}

// Writes a title, and null into the cells of its fields.
pub(crate) fn lay<S: Store>(
    store: &mut S,
    at: u32,
    flags: u8,
    size: u32,
    fields: u32,
) -> Result<(), HeapFault>
    ensures { at + fields + 1 ≤ (S.memory store.old).figures.cells → FitDescriptor (S.memory store.old).figures (desc (pos at) flags size) →
        ((result ≡ Ok tt) × Headed (S.memory store.old) at (desc (pos at) flags size) fields (S.memory store.new)) }
{
    let title = with_cell(at, flags, size)?;
    store.set_descriptor(at, title)?;
    fill(store, at.saturating_add(1), fields, null_value())
}

// Adds a block of n null fields to the arena, and gives the first free cell then.
pub fn make_block<S: Store>(store: &mut S, next: u32, n: u32) -> Result<u32, HeapFault>
    ensures written { n ≤ 65535 → next + n + 1 ≤ (S.memory store.old).figures.cells →
        ((result ≡ Ok (next + n + 1)) × Made (S.memory store.old) next n (S.memory store.new)) }
    ensures made { (m : Model) (a : Arena) → Shows m a (S.memory store.old) → next ≡ a.«next» → 1 ≤ n → n ≤ 4096 → next + n + 1 ≤ (S.memory store.old).figures.cells →
        ((result ≡ Ok (next + n + 1)) × Grown m a (S.memory store.old) (block (length m.made)) (add_block m n) (arena_with_block m a n) (S.memory store.new)) }
    ensures full { (S.memory store.old).figures.cells < next + n + 1 → ((result ≡ Err NoRoom) × (store.new ≡ store.old)) }
{
    let end = end_of(store, next, n.saturating_add(1))?;
    lay(store, next, TITLE, n, n)?;
    Ok(end)
}
