// One list of calls on two workspaces, each over a store of its own.
ghost use Rattle.std.specs.Prelude.{◌≡◌, IfOk, MatchResult};
ghost use Rattle.rules.specs.Model.{Model};
ghost use Rattle.rules.specs.Arena.{Arena};
ghost use Rattle.rules.specs.Calls.{no};
ghost use Rattle.workspace.specs.declared.comparing.CompareFault.TheVariants.{Memory};
ghost use Rattle.workspace.specs.Reports.{report};
ghost use Rattle.workspace.specs.Shown.{view, Shown};
ghost use Rattle.workspace.specs.Logs.{entries, calls_of, Logged};
ghost use Rattle.workspace.specs.Comparing.{with_bins, open_answer, Ready, Compares};

use crate::faults::WorkspaceFault;
use crate::runs::Entry;
use crate::space::Workspace;
use cells::Store;
use rules::Request;
use std::alloc::{AllocError, Global};

// Why two workspaces were not compared: memory was wanting, or one of them could not be opened.
#[derive(Clone, Copy, PartialEq, Eq, Debug)]
pub enum CompareFault {
    Memory,
    First(WorkspaceFault),
    Second(WorkspaceFault),
}

impl From<AllocError> for CompareFault {
    ghost from_gives = { λ _ f. f ≡ Memory };

    fn from(_e: AllocError) -> CompareFault {
        CompareFault::Memory
    }
}

// A workspace over a store, opened with this many bins.
pub(crate) fn opened<S: Store + Drop>(store: S, bins: u32) -> Result<Workspace<S>, WorkspaceFault>
    ensures { MatchResult result (λ w. Ready (with_bins (S.memory store).figures bins) (view S.memory w)) (λ f. open_answer (with_bins (S.memory store).figures bins) ≡ no (report f)) }
{
    let mut w = Workspace::new(store);
    w.open(bins)?;
    Ok(w)
}

impl<S: Store> Workspace<S> {
    // The whole list, with a work list as long as the cells.
    pub(crate) fn log(&mut self, heap: Global, calls: &[Request]) -> Result<Vec<Entry>, AllocError>
        ensures { (m : Model) (a : Arena) → Shown m a (view S.memory self.old) →
            IfOk result (λ log. Logged (view S.memory self.old) m a (calls_of calls.now) (entries log.items) (view S.memory self.new)) }
    {
        let mut work = vec![in heap; 0u32; self.cells.cells() as usize]?;
        self.run(heap, calls, &mut work)
    }
}

// The logs of one list of calls on two workspaces, each opened over a store of its own, whatever is in it.
pub(crate) fn compare<A: Store + Drop, B: Store + Drop>(
    heap: Global,
    a: A,
    a_bins: u32,
    b: B,
    b_bins: u32,
    calls: &[Request],
) -> Result<(Vec<Entry>, Vec<Entry>), CompareFault>
    ensures { Compares (with_bins (A.Store.memory a).figures a_bins) (with_bins (B.Store.memory b).figures b_bins) (calls_of calls.now) result }
{
    let mut first = opened(a, a_bins).map_err(CompareFault::First)?;
    let mut second = opened(b, b_bins).map_err(CompareFault::Second)?;
    let x = first.log(heap, calls)?;
    let y = second.log(heap, calls)?;
    Ok((x, y))
}
