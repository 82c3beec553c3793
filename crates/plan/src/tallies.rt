// What names take in an arena over a store.
ghost use Rattle.std.specs.Prelude.{◌≡◌};
ghost use Rattle.plan.specs.declared.tallies.PlanFault.TheVariants.{NoMemory};
ghost use Rattle.plan.specs.Names.{texts, name_texts, distinct};
ghost use Rattle.plan.specs.Plans.{all_taken, cells_in, Planned, Largest};

use crate::names::{Name, distinct_of};
use cells::Store;
use rules::{LONGEST_TEXT, MOST_BINS, key_of, string_cells};
use std::alloc::{AllocError, Global};
use thiserror::Error;

const MOST_NAMES: usize = 1_048_576;

// What names take in an arena: how many names there are without repetition, how many of these the store holds, the cells
// of their strings, the cells of an arena with its bins, and how many names fall into each bin.
#[derive(Drop)]
pub struct Tally {
    pub distinct: u32,
    pub names: u32,
    pub cells: u32,
    pub arena: u32,
    pub by_bin: Vec<u32>,
}

#[derive(Clone, Copy, PartialEq, Eq, Debug, Error)]
pub enum PlanFault {
    #[error("the bins are a number from 1 to 256")]
    BadBins,
    #[error("there are more than 1,048,576 names")]
    TooMany,
    #[error("memory is wanting")]
    NoMemory,
}

impl From<AllocError> for PlanFault {
    ghost from_gives = { λ _ f. f ≡ NoMemory };

    fn from(_e: AllocError) -> PlanFault {
        PlanFault::NoMemory
    }
}

// Whether the store's codes have every character of a name.
fn takes_all<S: Store>(store: &S, name: &[u8]) -> bool
    ensures { result ≡ all_taken (S.memory store.now).figures name.now }
{
    let codes = store.lowest()..=store.highest();
    name.iter().all(|code| codes.contains(code))
}

// The cells that a name's string takes in the store, or None where the store cannot hold it.
pub fn cells_in<S: Store>(store: &S, name: &[u8]) -> Option<u32>
    ensures { result ≡ cells_in (S.memory store.now).figures name.now }
{
    if (1..=LONGEST_TEXT as usize).contains(&name.len()) && takes_all(store, name) {
        string_cells(name.len() as u32, store.places())
    } else {
        None
    }
}

// What names, each given once, take in an arena over the store.
fn tallied<S: Store>(heap: Global, store: &S, names: &[Name], bins: u32) -> Result<Tally, PlanFault>
    ensures { Planned (S.memory store.now).figures bins (name_texts names.now) result }
{
    if !(1..=MOST_BINS).contains(&bins) {
        return Err(PlanFault::BadBins);
    }
    if names.len() > MOST_NAMES {
        return Err(PlanFault::TooMany);
    }
    let mut held = 0;
    let mut cells = 0;
    let mut by_bin = vec![in heap; 0; bins as usize]?;
    for &Name(name) in names {
        if let Some(taken) = cells_in(store, name) {
            held += 1;
            cells += taken;
            by_bin[(key_of(name) % bins) as usize] += 1;
        }
    }
    Ok(Tally {
        distinct: names.len() as u32,
        names: held,
        cells,
        arena: bins + cells,
        by_bin,
    })
}

// What some names take in an arena over the store with so many bins. A name that stands again takes nothing more.
pub fn plan_for<S: Store>(
    heap: Global,
    store: &S,
    names: &[&[u8]],
    bins: u32,
) -> Result<Tally, PlanFault>
    ensures { Planned (S.memory store.now).figures bins (distinct (texts names.now)) result }
{
    let once = distinct_of(heap, names)?;
    tallied(heap, store, once.as_slice(), bins)
}

// The largest of some counts, if there are any.
pub fn fullest(counts: &[u32]) -> Option<u32>
    ensures { Largest counts.now result }
{
    counts.iter().copied().max()
}
