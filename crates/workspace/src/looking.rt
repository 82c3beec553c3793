// The calls that look at what a register holds: kind and read.
ghost use Rattle.std.specs.Prelude.{◌≤◌, length, IfOk};
ghost use Rattle.rules.specs.Calls.{kind as rule_kind, read as rule_read};
ghost use Rattle.workspace.specs.Shown.{view, Exact, answered, pair, written, Leaves};

use crate::faults::{Cause, Site, WorkspaceFault};
use crate::space::Workspace;
use arena::fields::{count_at, length_at};
use arena::texts::read_text;
use arena::titles::title_of;
use arena::values::{Held, decoded};
use arena::{NAME, NULL, NUMBER, TEXT};
use cells::Store;
use rules::Word;

impl<S: Store> Workspace<S> {
    // T of what register r holds, then its length, number, field count or field number.
    pub(crate) fn kind(&self, r: u32) -> Result<(u32, i64), WorkspaceFault>
        ensures { Exact (view S.memory self.now) (rule_kind r) (answered pair result) (view S.memory self.now) }
    {
        self.admit(Word::Kind, &[r])?;
        let site = Site {
            call: Word::Kind,
            register: r,
        };
        match decoded(self.registers[r as usize]) {
            Held::Null => Ok((NULL, 0)),
            Held::Number(z) => Ok((NUMBER, i64::from(z))),
            Held::Text(title) => {
                let length = site.in_call(length_at(&self.cells, title))?;
                Ok((TEXT, i64::from(length)))
            }
            Held::Block(title, t) => {
                let fields = site.in_call(count_at(&self.cells, title))?;
                Ok((t, i64::from(fields)))
            }
            Held::Name(cell) => {
                let (_, k) = site.in_call(title_of(&self.cells, cell))?;
                Ok((NAME, i64::from(k)))
            }
            Held::Other => Err(site.refusal(Cause::WrongKind)),
        }
    }

    // Writes the characters of the string in register r to the start of the buffer, and gives their count.
    pub(crate) fn read(&self, r: u32, buffer: &mut [u8]) -> Result<u32, WorkspaceFault>
        ensures exact { Exact (view S.memory self.now) (rule_read r (length buffer.old)) (written result buffer.new) (view S.memory self.now) }
        ensures rest { Leaves (view S.memory self.now) result buffer.old buffer.new }
        ensures within { IfOk result (λ n. n ≤ length buffer.new) }
    {
        self.admit(Word::Read, &[r])?;
        let site = Site {
            call: Word::Read,
            register: r,
        };
        match decoded(self.registers[r as usize]) {
            Held::Null => Ok(0),
            Held::Text(title) => {
                let count = site.in_call(read_text(&self.cells, title, buffer))?;
                count.ok_or(site.refusal(Cause::ShortBuffer))
            }
            _ => Err(site.refusal(Cause::WrongKind)),
        }
    }
}
