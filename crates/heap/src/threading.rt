// Chains: heads and links of marked strings lead past the strings that are not marked. The work list is the table of new cells.
ghost use Rattle.std.specs.Prelude.{◌≡◌, ℕ, ◌<◌, ◌≤◌, List, Ok};
ghost use Rattle.cells.specs.declared.Descriptor.{Descriptor as Desc};
ghost use Rattle.cells.specs.Meaning.{WroteDescriptor};
ghost use Rattle.rules.specs.Lists.{In};
ghost use Rattle.heap.specs.Walks.{Tiled};
ghost use Rattle.heap.specs.Threads.{Led, Linkable, Threading, Headed, Heading};

use crate::blocks::Blocks;
use crate::descriptors::{is_marked, is_string, last_link};
use crate::moving::new_cell;
use arena::LINK;
use arena::extent::Extent;
use arena::faults::{HeapFault, Rule};
use arena::strings::follow;
use arena::titles::pointer_at;
use cells::{Descriptor, Store};

// A head or a link, past the strings that are not marked, to the new cell of the next one.
pub fn relinked<S: Store>(store: &S, d: Descriptor, work: &[u32]) -> Result<Descriptor, HeapFault>
    ensures { (ts : List ℕ) (d' : Desc) → Led (S.memory store.now) ts work.now d d' → result ≡ Ok d' }
{
    let mut link = d;
    for _ in 0..=store.cells() {
        let Some(at) = follow(link)? else {
            return Ok(last_link(d));
        };
        let t = store.descriptor(at)?;
        if is_marked(t) {
            return pointer_at(new_cell(work, at)?, d.kind);
        }
        link = store.descriptor(at + LINK)?;
    }
    Err(HeapFault::Unlawful(Rule::Chains, 0))
}

// Gives one head or link its new value.
pub fn relink<S: Store>(store: &mut S, cell: u32, work: &[u32]) -> Result<(), HeapFault>
    ensures { (ts : List ℕ) (d' : Desc) → cell < (S.memory store.old).figures.cells →
        Led (S.memory store.old) ts work.now ((S.memory store.old).descriptor cell) d' →
        ((result ≡ Ok tt) × WroteDescriptor (S.memory store.old) cell d' (S.memory store.new)) }
{
    let d = store.descriptor(cell)?;
    let link = relinked(store, d, work)?;
    store.set_descriptor(cell, link)?;
    Ok(())
}

// Gives the link of every marked string its new value.
pub fn thread_links<S: Store>(store: &mut S, extent: Extent, work: &[u32]) -> Result<(), HeapFault>
    ensures { (ts : List ℕ) (link : ℕ → Desc) → Tiled (S.memory store.old) ts extent.bins extent.next → Linkable (S.memory store.old) ts work.now link →
        ((result ≡ Ok tt) × Threading (S.memory store.old) ts link extent.next extent.next (S.memory store.new)) }
{
    let mut blocks = Blocks::of(extent)?;
    while let Some(block) = blocks.step(store)? {
        if is_marked(block.title) && is_string(block.title) {
            relink(store, block.at + LINK, work)?;
        }
    }
    Ok(())
}

// Gives every head its new value.
pub fn thread_heads<S: Store>(store: &mut S, bins: u32, work: &[u32]) -> Result<(), HeapFault>
    ensures { (ts : List ℕ) (head : ℕ → Desc) → bins ≤ (S.memory store.old).figures.cells → ((q : ℕ) → In q ts → bins ≤ q) →
        Headed (S.memory store.old) ts work.now bins head →
        ((result ≡ Ok tt) × Heading (S.memory store.old) head bins (S.memory store.new)) }
{
    for b in 0..bins {
        relink(store, b, work)?;
    }
    Ok(())
}
