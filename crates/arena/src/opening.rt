// Opening: an arena with no thing in it.
ghost use Rattle.std.specs.Prelude.{◌≡◌, ◌≤◌, Ok};
ghost use Rattle.rules.specs.Model.{empty};
ghost use Rattle.rules.specs.Arena.{Shows};
ghost use Rattle.arena.specs.Opening.{no_head, empty_arena};

use crate::blocks::fill;
use crate::extent::Extent;
use crate::faults::HeapFault;
use cells::{Descriptor, Store};

// A head of a chain with no text.
pub fn no_head() -> Descriptor
    ensures { result ≡ no_head }
{
    Descriptor {
        value: 0,
        flags: 0,
        kind: 0,
    }
}

// Zeroes the heads: no thing lies behind them.
pub fn open_arena<S: Store>(store: &mut S, bins: u32) -> Result<Extent, HeapFault>
    ensures { 1 ≤ bins → bins ≤ 256 → bins ≤ (S.memory store.old).figures.cells →
        ((result ≡ Ok (record { bins = bins; «next» = bins })) × ((S.memory store.new).figures ≡ (S.memory store.old).figures) × Shows empty (empty_arena bins) (S.memory store.new)) }
{
    fill(store, 0, bins, no_head())?;
    Ok(Extent { bins, next: bins })
}
