// Making a workspace, and opening it.
ghost use Rattle.std.specs.Prelude.{◌≡◌, true, replicate, is_err};
ghost use Rattle.rules.specs.Arena.{null_desc};
ghost use Rattle.workspace.specs.State.{Shut};
ghost use Rattle.workspace.specs.Shown.{view, answered, nothing};
ghost use Rattle.workspace.specs.Opened.{Opens};

use crate::faults::{Cause, Site, WorkspaceFault};
use crate::space::{REGISTERS, Workspace};
use arena::opening::open_arena;
use arena::titles::null_value;
use cells::Store;
use rules::{MOST_BINS, Word};

// Refusals of open have no register.
const OPENING: Site = Site {
    call: Word::Open,
    register: 0,
};

impl<S: Store> Workspace<S> {
    // A closed workspace over a store, with null registers.
    pub(crate) fn new(store: S) -> Workspace<S>
        ensures made { result ≡ record { cells = store; registers = replicate 32 null_desc; state = Shut } }
    {
        Workspace {
            cells: store,
            registers: [null_value(); REGISTERS],
            state: None,
        }
    }

    // Opens a closed workspace with this many bins, all empty.
    pub(crate) fn open(&mut self, bins: u32) -> Result<(), WorkspaceFault>
        ensures opens { Opens (view S.memory self.old) bins (answered nothing result) (view S.memory self.new) }
        ensures kept { is_err result ≡ true → self.new ≡ self.old }
    {
        if self.state.is_some() {
            return Err(OPENING.refusal(Cause::AlreadyOpen));
        }
        if !(1..=MOST_BINS).contains(&bins) || bins > self.cells.cells() {
            return Err(OPENING.refusal(Cause::BadBins));
        }
        let extent = OPENING.in_call(open_arena(&mut self.cells, bins))?;
        self.state = Some(extent);
        Ok(())
    }
}
