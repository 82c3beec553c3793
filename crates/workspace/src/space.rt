// The workspace: a register file and a store, changed in place.
use arena::extent::Extent;
use cells::Descriptor;

pub(crate) const REGISTERS: usize = 32;

// A workspace is made closed; an open one has its bins and its first free cell.
#[derive(Drop)]
pub struct Workspace<S> {
    pub(crate) cells: S,
    pub(crate) registers: [Descriptor; REGISTERS],
    pub(crate) state: Option<Extent>,
}
