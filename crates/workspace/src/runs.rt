// Lists of calls, and what a workspace answers to each.
ghost use Rattle.std.specs.Prelude.{◌≡◌, ◌≤◌, List, [], ℤ, length, IfOk};
ghost use Rattle.rules.specs.Model.{Model};
ghost use Rattle.rules.specs.Arena.{Arena};
ghost use Rattle.rules.specs.Requests.{meant};
ghost use Rattle.rules.specs.Calls.{read as rule_read, ok};
ghost use Rattle.workspace.specs.Logs.{Performs, entry, entries, calls_of, Logged};
ghost use Rattle.workspace.specs.Shown.{view, Shown, Exact, answered, nothing, count, truth, pair};

use crate::faults::WorkspaceFault;
use crate::space::Workspace;
use cells::Store;
use rules::Request;
use std::alloc::{AllocError, Global};

// An entry of a log: the numbers that a call answered, for read the characters that it counted, or its refusal.
#[derive(Drop)]
pub enum Entry {
    Done,
    Count(u32),
    Pair(u32, i64),
    Read(Vec<u8>),
    Refused(WorkspaceFault),
}

// What a call answers, as an entry of a log.
pub(crate) trait Answer: Drop {
    ghost numbers: { Self → List ℤ };

    fn entry(self) -> Entry
        ensures { entry result ≡ ok (numbers self) [] };
}

impl Answer for () {
    ghost numbers = { nothing };

    fn entry(self) -> Entry {
        Entry::Done
    }
}

impl Answer for u32 {
    ghost numbers = { count };

    fn entry(self) -> Entry {
        Entry::Count(self)
    }
}

impl Answer for bool {
    ghost numbers = { truth };

    fn entry(self) -> Entry {
        Entry::Count(u32::from(self))
    }
}

impl Answer for (u32, i64) {
    ghost numbers = { pair };

    fn entry(self) -> Entry {
        let (t, z) = self;
        Entry::Pair(t, z)
    }
}

// The entry of a call: what it answers, or its refusal.
fn logged<A: Answer>(r: Result<A, WorkspaceFault>) -> Entry
    ensures { entry result ≡ answered A.numbers r }
{
    match r {
        Ok(answer) => answer.entry(),
        Err(f) => Entry::Refused(f),
    }
}

impl<S: Store> Workspace<S> {
    // The call read with a buffer of n bytes.
    pub(crate) fn read_entry(&self, heap: Global, r: u32, n: u32) -> Result<Entry, AllocError>
        ensures { IfOk result (λ e. Exact (view S.memory self.now) (rule_read r n) (entry e) (view S.memory self.now)) }
    {
        let mut buffer = vec![in heap; 0u8; n as usize]?;
        match self.read(r, &mut buffer) {
            Ok(count) => {
                buffer.truncate(count as usize);
                Ok(Entry::Read(buffer))
            }
            Err(f) => Ok(Entry::Refused(f)),
        }
    }

    // One call of a list.
    pub(crate) fn perform(
        &mut self,
        heap: Global,
        request: Request,
        work: &mut [u32],
    ) -> Result<Entry, AllocError>
        ensures { IfOk result (λ e. Performs (view S.memory self.old) (length work.old) (meant request.entry) (entry e) (view S.memory self.new)) }
    {
        match request {
            Request::Null(r) => Ok(logged(self.null(r))),
            Request::Number(r, i) => Ok(logged(self.number(r, i))),
            Request::Copy(r, s) => Ok(logged(self.copy(r, s))),
            Request::Make(r, n, t) => Ok(logged(self.make(r, n, t, work))),
            Request::Text(r, bytes) => Ok(logged(self.text(r, bytes, work))),
            Request::Name(r, s, k) => Ok(logged(self.name(r, s, k))),
            Request::Fetch(r, s) => Ok(logged(self.fetch(r, s))),
            Request::Store(r, s) => Ok(logged(self.store(r, s))),
            Request::Divide(r, s, q) => Ok(logged(self.divide(r, s, q))),
            Request::Kind(r) => Ok(logged(self.kind(r))),
            Request::Read(r, n) => self.read_entry(heap, r, n),
            Request::Same(r, s) => Ok(logged(self.same(r, s))),
            Request::Collect(n) => Ok(logged(self.collect(n, work))),
        }
    }

    // The whole list, one call after the other: a refused call changes nothing, and the next one follows.
    pub(crate) fn run(
        &mut self,
        heap: Global,
        calls: &[Request],
        work: &mut [u32],
    ) -> Result<Vec<Entry>, AllocError>
        ensures { (m : Model) (a : Arena) → Shown m a (view S.memory self.old) → (S.memory self.old.cells).figures.cells ≤ length work.old →
            IfOk result (λ log. Logged (view S.memory self.old) m a (calls_of calls.now) (entries log.items) (view S.memory self.new)) }
    {
        let mut log = Vec::new(heap);
        for call in calls {
            let entry = self.perform(heap, *call, work)?;
            log.push(entry)?;
        }
        Ok(log)
    }
}
