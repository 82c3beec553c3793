// The calls that may need cells: make, text and collect.
ghost use Rattle.std.specs.Prelude.{◌≡◌, ◌+◌, ◌<◌, ◌≤◌, length, MatchResult};
ghost use Rattle.rules.specs.Lists.{In};
ghost use Rattle.rules.specs.Model.{Model, Value, string, string_cells};
ghost use Rattle.rules.specs.Arena.{Arena};
ghost use Rattle.rules.specs.Calls.{put_block, make as rule_make, collect as rule_collect, put, text as rule_text};
ghost use Rattle.arena.specs.Enters.{Takes};
ghost use Rattle.arena.specs.Growth.{arena_with_block, arena_with_text};
ghost use Rattle.workspace.specs.declared.faults.Cause.TheVariants.{ShortWork};
ghost use Rattle.workspace.specs.Reports.{refusal};
ghost use Rattle.workspace.specs.Rooms.{RoomOf, Grows, Enters, Regains, ended};
ghost use Rattle.workspace.specs.Shown.{view, Shown, ExactWith, Untouched, answered, nothing, count};

use crate::faults::{Cause, Site, WorkspaceFault};
use crate::space::Workspace;
use arena::TEXT;
use arena::blocks::{fit as fit_block, make_block};
use arena::entering::enter_text;
use arena::extent::Extent;
use arena::faults::{HeapFault, Rule};
use arena::strings::find;
use arena::texts::fit as fit_text;
use arena::titles::{null_value, pointer_at};
use cells::Store;
use heap::regeneration::regenerate;
use heap::room::make_room;
use rules::{LONGEST_TEXT, Word, free_cells, string_cells};

impl<S: Store> Workspace<S> {
    // Refusal 15: the work list is as long as the cells.
    pub(crate) fn take_list(&self, site: Site, work: &[u32]) -> Result<(), WorkspaceFault>
        ensures { MatchResult result (λ _. (S.memory self.now.cells).figures.cells ≤ length work.now) (λ f. (length work.now < (S.memory self.now.cells).figures.cells) × (f ≡ refusal site.call site.register ShortWork)) }
    {
        if work.len() < self.cells.cells() as usize {
            return Err(site.refusal(Cause::ShortWork));
        }
        Ok(())
    }

    // Makes room for `need` cells, and gives the first of them.
    pub(crate) fn room(&mut self, need: u32, work: &mut [u32]) -> Result<u32, HeapFault>
        ensures { (m : Model) (a : Arena) → Shown m a (view S.memory self.old) → (S.memory self.old.cells).figures.cells ≤ length work.old →
            RoomOf m a (view S.memory self.old) need (view S.memory self.new) result }
    {
        let Some(extent) = &mut self.state else {
            return Err(HeapFault::Unlawful(Rule::Next, 0));
        };
        make_room(&mut self.cells, &mut self.registers, extent, work, need)?;
        Ok(extent.next)
    }

    // An open workspace has this first free cell from now on.
    pub(crate) fn end_at(&mut self, next: u32)
        ensures { self.new ≡ record { cells = self.old.cells; registers = self.old.registers; state = ended self.old.state next } }
    {
        if let Some(extent) = &mut self.state {
            extent.next = next;
        }
    }

    // Adds a block of n null fields, and points register r at it.
    pub(crate) fn add_block(
        &mut self,
        r: u32,
        n: u32,
        t: u32,
        work: &mut [u32],
    ) -> Result<(), HeapFault>
        requires { r < 32 }
        ensures { (m : Model) (a : Arena) → Shown m a (view S.memory self.old) → (S.memory self.old.cells).figures.cells ≤ length work.old →
            1 ≤ n → n ≤ 4096 → 16 ≤ t → t ≤ 255 →
            Grows m a (view S.memory self.old) (n + 1) (put_block m r n t) (λ b. arena_with_block m b n) (view S.memory self.new) result }
    {
        let next = self.room(n.saturating_add(1), work)?;
        let end = make_block(&mut self.cells, next, n)?;
        let block = pointer_at(next, t)?;
        self.registers[r as usize] = block;
        self.end_at(end);
        Ok(())
    }

    // Register r holds a new block of n null fields and type t.
    pub(crate) fn make(
        &mut self,
        r: u32,
        n: u32,
        t: u32,
        work: &mut [u32],
    ) -> Result<(), WorkspaceFault>
        ensures exact { ExactWith (view S.memory self.old) (length work.old) (rule_make r n t) (answered nothing result) (view S.memory self.new) }
        ensures kept { Untouched (view S.memory self.old) result (self.new ≡ self.old) (work.new ≡ work.old) }
    {
        self.admit(Word::Make, &[r])?;
        let site = Site {
            call: Word::Make,
            register: r,
        };
        site.in_call(fit_block(n, t))?;
        self.take_list(site, work)?;
        site.in_call(self.add_block(r, n, t, work))?;
        Ok(())
    }

    // Regenerates, and gives the count of the free cells if they are at least `need`.
    pub(crate) fn regain(&mut self, need: u32, work: &mut [u32]) -> Result<u32, HeapFault>
        ensures { (m : Model) (a : Arena) → Shown m a (view S.memory self.old) → (S.memory self.old.cells).figures.cells ≤ length work.old →
            Regains m a (view S.memory self.old) need (view S.memory self.new) result }
    {
        let Some(extent) = self.state else {
            return Err(HeapFault::Unlawful(Rule::Next, 0));
        };
        let next = regenerate(&mut self.cells, &mut self.registers, extent, work)?;
        self.state = Some(Extent { next, ..extent });
        let free = free_cells(self.cells.cells(), next);
        if free < need {
            return Err(HeapFault::NoRoom);
        }
        Ok(free)
    }

    // Regenerates, and gives the count of the free cells if they are at least n.
    pub(crate) fn collect(&mut self, n: u32, work: &mut [u32]) -> Result<u32, WorkspaceFault>
        ensures exact { ExactWith (view S.memory self.old) (length work.old) (rule_collect n) (answered count result) (view S.memory self.new) }
        ensures kept { Untouched (view S.memory self.old) result (self.new ≡ self.old) (work.new ≡ work.old) }
    {
        self.admit(Word::Collect, &[])?;
        let site = Site {
            call: Word::Collect,
            register: 0,
        };
        self.take_list(site, work)?;
        let free = site.in_call(self.regain(n, work))?;
        Ok(free)
    }

    // Adds the string of a text that is not there, and points register r at it.
    pub(crate) fn add_text(
        &mut self,
        r: u32,
        bins: u32,
        text: &[u8],
        work: &mut [u32],
    ) -> Result<(), HeapFault>
        requires { r < 32 }
        ensures { (m : Model) (a : Arena) → Shown m a (view S.memory self.old) → (S.memory self.old.cells).figures.cells ≤ length work.old →
            bins ≡ a.bins → 1 ≤ length text.now → length text.now ≤ 1024 → Takes (S.memory self.old.cells) text.now →
            (In (string text.now) a.order → ⊥) →
            Grows m a (view S.memory self.old) (string_cells (S.memory self.old.cells).figures.places (length text.now))
            (put m r (Value.text text.now)) (λ b. arena_with_text (S.memory self.old.cells).figures.places b text.now) (view S.memory self.new) result }
    {
        if text.len() > LONGEST_TEXT as usize {
            return Err(HeapFault::LongText);
        }
        let length = text.len() as u32;
        let need = string_cells(length, self.cells.places()).ok_or(HeapFault::LongText)?;
        let next = self.room(need, work)?;
        let end = enter_text(&mut self.cells, Extent { bins, next }, text)?;
        let string = pointer_at(next, TEXT)?;
        self.registers[r as usize] = string;
        self.end_at(end);
        Ok(())
    }

    // Points register r at the string of a text, which is there or is added.
    pub(crate) fn put_text(
        &mut self,
        r: u32,
        text: &[u8],
        work: &mut [u32],
    ) -> Result<(), HeapFault>
        requires { r < 32 }
        ensures { (m : Model) (a : Arena) → Shown m a (view S.memory self.old) → (S.memory self.old.cells).figures.cells ≤ length work.old →
            1 ≤ length text.now → length text.now ≤ 1024 → Takes (S.memory self.old.cells) text.now →
            Enters m a (view S.memory self.old) r text.now (view S.memory self.new) result }
    {
        let Some(extent) = self.state else {
            return Err(HeapFault::Unlawful(Rule::Next, 0));
        };
        let found = find(&self.cells, extent.bins, text)?;
        match found {
            Some(title) => {
                let string = pointer_at(title, TEXT)?;
                self.registers[r as usize] = string;
                Ok(())
            }
            None => self.add_text(r, extent.bins, text, work),
        }
    }

    // Register r holds the string of these characters, or null if there are none.
    pub(crate) fn text(
        &mut self,
        r: u32,
        bytes: &[u8],
        work: &mut [u32],
    ) -> Result<(), WorkspaceFault>
        ensures exact { ExactWith (view S.memory self.old) (length work.old) (rule_text r bytes.now) (answered nothing result) (view S.memory self.new) }
        ensures kept { Untouched (view S.memory self.old) result (self.new ≡ self.old) (work.new ≡ work.old) }
    {
        self.admit(Word::Text, &[r])?;
        let site = Site {
            call: Word::Text,
            register: r,
        };
        site.in_call(fit_text(&self.cells, bytes))?;
        self.take_list(site, work)?;
        if bytes.is_empty() {
            self.registers[r as usize] = null_value();
            return Ok(());
        }
        site.in_call(self.put_text(r, bytes, work))?;
        Ok(())
    }
}
