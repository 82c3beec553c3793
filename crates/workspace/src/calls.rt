// The check that comes first in every call, and the calls that look at no cell: null, number, copy, divide and same.
ghost use Rattle.std.specs.Prelude.{◌≡◌, true, is_err, ◌≢◌, slice_index};
ghost use Rattle.rules.specs.Arena.{desc};
ghost use Rattle.rules.specs.Calls.{null as rule_null, number as rule_number, copy as rule_copy, divide as rule_divide, same as rule_same};
ghost use Rattle.arena.specs.Values.{held};
ghost use Rattle.workspace.specs.Shown.{view, Admits, Exact, answered, nothing, truth};

use crate::faults::{Cause, Site, WorkspaceFault};
use crate::space::{REGISTERS, Workspace};
use arena::NUMBER;
use arena::titles::null_value;
use arena::values::decoded;
use cells::{Descriptor, Store};
use rules::{Word, quotient_of};

// The descriptor of a number.
fn number_value(z: i32) -> Descriptor
    ensures { result ≡ desc z 0 6 }
{
    Descriptor {
        value: z,
        flags: 0,
        kind: NUMBER,
    }
}

impl<S: Store> Workspace<S> {
    // Refusals 5 and 8: the workspace is open, and the registers are there.
    pub(crate) fn admit(&self, call: Word, registers: &[u32]) -> Result<(), WorkspaceFault>
        ensures { Admits self.now.state call registers.now result }
    {
        if self.state.is_none() {
            let register = registers.first().copied().unwrap_or(0);
            return Err(Site { call, register }.refusal(Cause::Closed));
        }
        for r in registers {
            if *r >= REGISTERS as u32 {
                return Err(Site { call, register: *r }.refusal(Cause::NoRegister));
            }
        }
        Ok(())
    }

    // Register r holds null.
    pub(crate) fn null(&mut self, r: u32) -> Result<(), WorkspaceFault>
        ensures exact { Exact (view S.memory self.old) (rule_null r) (answered nothing result) (view S.memory self.new) }
        ensures kept { is_err result ≡ true → self.new ≡ self.old }
    {
        self.admit(Word::Null, &[r])?;
        self.registers[r as usize] = null_value();
        Ok(())
    }

    // Register r holds the number z.
    pub(crate) fn number(&mut self, r: u32, z: i32) -> Result<(), WorkspaceFault>
        ensures exact { Exact (view S.memory self.old) (rule_number r z) (answered nothing result) (view S.memory self.new) }
        ensures kept { is_err result ≡ true → self.new ≡ self.old }
    {
        self.admit(Word::Number, &[r])?;
        self.registers[r as usize] = number_value(z);
        Ok(())
    }

    // Register r holds what s holds.
    pub(crate) fn copy(&mut self, r: u32, s: u32) -> Result<(), WorkspaceFault>
        ensures exact { Exact (view S.memory self.old) (rule_copy r s) (answered nothing result) (view S.memory self.new) }
        ensures kept { is_err result ≡ true → self.new ≡ self.old }
    {
        self.admit(Word::Copy, &[r, s])?;
        self.registers[r as usize] = self.registers[s as usize];
        Ok(())
    }

    // Register r holds the number in s by that in q, the fraction dropped.
    pub(crate) fn divide(&mut self, r: u32, s: u32, q: u32) -> Result<(), WorkspaceFault>
        ensures exact { Exact (view S.memory self.old) (rule_divide r s q) (answered nothing result) (view S.memory self.new) }
        ensures kept { is_err result ≡ true → self.new ≡ self.old }
    {
        let call = Word::Divide;
        self.admit(call, &[r, s, q])?;
        let a = Site { call, register: s }.taken(decoded(self.registers[s as usize]).number())?;
        let b = Site { call, register: q }.taken(decoded(self.registers[q as usize]).number())?;
        let site = Site { call, register: r };
        let z = quotient_of(a, b).ok_or(site.refusal(Cause::Division))?;
        self.registers[r as usize] = number_value(z);
        Ok(())
    }

    // Whether the registers r and s hold the same value.
    pub(crate) fn same(&self, r: u32, s: u32) -> Result<bool, WorkspaceFault>
        ensures { Exact (view S.memory self.now) (rule_same r s) (answered truth result) (view S.memory self.now) }
    {
        self.admit(Word::Same, &[r, s])?;
        Ok(self.registers[r as usize] == self.registers[s as usize])
    }
}
