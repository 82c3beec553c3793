// Why a workspace refuses a call. A store's fault is carried whole inside the heap's, and that inside the workspace's.
ghost use Rattle.std.specs.Prelude.{◌≡◌};
ghost use Rattle.workspace.specs.Taken.{taken};
ghost use Rattle.workspace.specs.Reports.{cause_number, cause_layer, cause_place, raised, refusal, told};

use arena::faults::HeapFault;
use rules::{Layer, Word};

// The heap's fault, or one of the workspace's own.
#[derive(Clone, Copy, PartialEq, Eq, Debug)]
pub enum Cause {
    Heap(HeapFault),
    Closed,
    AlreadyOpen,
    BadBins,
    NoRegister,
    WrongKind,
    Division,
    ShortBuffer,
    ShortWork,
}

// A refusal with its call and the register that is reported.
#[derive(Clone, Copy, PartialEq, Eq, Debug)]
pub struct WorkspaceFault {
    pub cause: Cause,
    pub call: Word,
    pub register: u32,
}

impl WorkspaceFault {
    // The number of the refusal.
    pub fn number(self) -> u32
        ensures { result ≡ cause_number self.cause }
    {
        match self.cause {
            Cause::Heap(fault) => fault.number(),
            Cause::Closed => 5,
            Cause::AlreadyOpen => 6,
            Cause::BadBins => 7,
            Cause::NoRegister => 8,
            Cause::WrongKind => 9,
            Cause::Division => 13,
            Cause::ShortBuffer => 14,
            Cause::ShortWork => 15,
        }
    }

    // The layer whose check refuses.
    pub fn layer(self) -> Layer
        ensures { result ≡ cause_layer self.cause }
    {
        match self.cause {
            Cause::Heap(fault) => fault.layer(),
            _ => Layer::Workspace,
        }
    }

    // The place that the heap tells, or 0.
    pub fn place(self) -> u32
        ensures { result ≡ cause_place self.cause }
    {
        match self.cause {
            Cause::Heap(fault) => fault.place(),
            _ => 0,
        }
    }
}

// A heap's fault on its way up, with the call and the register that it is reported at.
#[derive(Clone, Copy, PartialEq, Eq, Debug)]
pub struct Raised {
    pub fault: HeapFault,
    pub call: Word,
    pub register: u32,
}

impl From<Raised> for WorkspaceFault {
    ghost from_gives = { λ h w. w ≡ told h };

    fn from(h: Raised) -> WorkspaceFault {
        WorkspaceFault {
            cause: Cause::Heap(h.fault),
            call: h.call,
            register: h.register,
        }
    }
}

// Where a refusal is reported: at a call, and at one of its registers or at 0.
#[derive(Clone, Copy)]
pub(crate) struct Site {
    pub call: Word,
    pub register: u32,
}

impl Site {
    pub(crate) fn refusal(self, cause: Cause) -> WorkspaceFault
        ensures { result ≡ refusal self.call self.register cause }
    {
        WorkspaceFault {
            cause,
            call: self.call,
            register: self.register,
        }
    }

    // What a call takes from a register: any other value is refused there.
    pub(crate) fn taken<T: Drop>(self, found: Option<T>) -> Result<T, WorkspaceFault>
        ensures { result ≡ taken self.call self.register found }
    {
        found.ok_or(self.refusal(Cause::WrongKind))
    }

    // The heap's answer, with the call and the register beside its fault.
    pub(crate) fn in_call<T>(self, r: Result<T, HeapFault>) -> Result<T, Raised>
        ensures { result ≡ raised r self.call self.register }
    {
        r.map_err(|fault| Raised {
            fault,
            call: self.call,
            register: self.register,
        })
    }
}
