// The calls on fields: name, fetch and store.
ghost use Rattle.std.specs.Prelude.{◌≡◌, true, is_err};
ghost use Rattle.rules.specs.Calls.{name as rule_name, fetch as rule_fetch, store as rule_store};
ghost use Rattle.workspace.specs.Shown.{view, Exact, answered, nothing};

use crate::faults::{Site, WorkspaceFault};
use crate::space::Workspace;
use arena::fields::{fetch_field, name_of, store_field};
use arena::values::decoded;
use cells::Store;
use rules::Word;

impl<S: Store> Workspace<S> {
    // Register r holds the name of field k of the block or string in s.
    pub(crate) fn name(&mut self, r: u32, s: u32, k: u32) -> Result<(), WorkspaceFault>
        ensures exact { Exact (view S.memory self.old) (rule_name r s k) (answered nothing result) (view S.memory self.new) }
        ensures kept { is_err result ≡ true → self.new ≡ self.old }
    {
        self.admit(Word::Name, &[r, s])?;
        let site = Site {
            call: Word::Name,
            register: s,
        };
        let title = site.taken(decoded(self.registers[s as usize]).thing())?;
        let d = site.in_call(name_of(&self.cells, title, k))?;
        self.registers[r as usize] = d;
        Ok(())
    }

    // Register r holds the value in the field that s names.
    pub(crate) fn fetch(&mut self, r: u32, s: u32) -> Result<(), WorkspaceFault>
        ensures exact { Exact (view S.memory self.old) (rule_fetch r s) (answered nothing result) (view S.memory self.new) }
        ensures kept { is_err result ≡ true → self.new ≡ self.old }
    {
        self.admit(Word::Fetch, &[r, s])?;
        let site = Site {
            call: Word::Fetch,
            register: s,
        };
        let cell = site.taken(decoded(self.registers[s as usize]).name())?;
        let d = site.in_call(fetch_field(&self.cells, cell))?;
        self.registers[r as usize] = d;
        Ok(())
    }

    // The field that r names holds the value of s.
    pub(crate) fn store(&mut self, r: u32, s: u32) -> Result<(), WorkspaceFault>
        ensures exact { Exact (view S.memory self.old) (rule_store r s) (answered nothing result) (view S.memory self.new) }
        ensures kept { is_err result ≡ true → self.new ≡ self.old }
    {
        self.admit(Word::Store, &[r, s])?;
        let site = Site {
            call: Word::Store,
            register: r,
        };
        let cell = site.taken(decoded(self.registers[r as usize]).name())?;
        let d = self.registers[s as usize];
        site.in_call(store_field(&mut self.cells, cell, d))?;
        Ok(())
    }
}
