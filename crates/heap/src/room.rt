// Room for new blocks and strings.
ghost use Rattle.std.specs.Prelude.{◌≡◌, ◌+◌, nat_le};
ghost use Rattle.rules.specs.Model.{Model};
ghost use Rattle.rules.specs.Arena.{Arena};
ghost use Rattle.heap.specs.Regeneration.{Shown};
ghost use Rattle.heap.specs.Room.{MakesRoom, FullExactly};

use crate::regeneration::regenerate;
use arena::extent::Extent;
use arena::faults::HeapFault;
use cells::{Descriptor, Store};

// Whether the cells from `next` on are at least `need`.
pub fn has_room(cells: u32, next: u32, need: u32) -> bool
    ensures { result ≡ nat_le (next + need) cells }
{
    next <= cells && need <= cells - next
}

// Makes room for `need` cells at `next`: regenerates if the cells from there on are too few, and refuses if they still are.
pub fn make_room<S: Store>(
    store: &mut S,
    registers: &mut [Descriptor],
    extent: &mut Extent,
    work: &mut [u32],
    need: u32,
) -> Result<(), HeapFault>
    ensures answer { (m : Model) (a : Arena) → Shown m a extent.old.bins extent.old.next registers.old work.old (S.memory store.old) →
        MakesRoom m a (S.memory store.old) extent.old.bins extent.old.next need registers.old extent.new.next registers.new work.new (S.memory store.new) result }
    ensures full { (m : Model) (a : Arena) → Shown m a extent.old.bins extent.old.next registers.old work.old (S.memory store.old) →
        FullExactly m (S.memory store.old) extent.old.bins need result }
    ensures same_bins { extent.new.bins ≡ extent.old.bins }
{
    let cells = store.cells();
    if has_room(cells, extent.next, need) {
        return Ok(());
    }
    extent.next = regenerate(store, registers, *extent, work)?;
    if has_room(cells, extent.next, need) {
        return Ok(());
    }
    Err(HeapFault::NoRoom)
}
