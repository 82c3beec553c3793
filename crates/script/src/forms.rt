// Reads forms, and expands what is repeated.
ghost use Rattle.std.specs.Prelude.{◌≡◌, MatchResult};
ghost use Rattle.scan.specs.declared.types.ReaderFault.TheVariants.{Memory};
ghost use Rattle.scan.specs.Taking.{Shortens, Eats};
ghost use Rattle.script.specs.Plans.{ReadsForm, ReadsLine};
ghost use Rattle.script.specs.Scripts.{Steps, Refusal, ExactlyOne};
ghost use Rattle.script.specs.Written.{Forms, Lawful, written, ReadBack};

use crate::plan::Plan;
use scan::reader::Reader;
use scan::types::{ReaderFault, Step};
use std::alloc::Global;

const MOST_BYTES: usize = 16384;

// Brackets that may stand inside the outermost one.
const INNER: u32 = 15;

// A script as far as it has been read, and the steps that its forms stand for.
#[derive(Drop)]
struct Expander<'a> {
    reader: Reader<'a>,
    plan: Plan<'a>,
}

// A form is repeated at most so often.
const MOST_TIMES: u32 = 1_000;

impl<'a> Expander<'a> {
    // A form whose bracket has been read; `inner` further brackets may stand inside it.
    fn form(&mut self, inner: u32) -> Result<(), ReaderFault>
        ensures forms { ReadsForm result inner self.old self.new }
        ensures shorter { Shortens result self.old.reader self.new.reader }
    {
        let Some(v) = self.reader.head(self.plan.is_empty())? else {
            let count = self.reader.natural(1, MOST_TIMES)?;
            let start = self.plan.len();
            let mut empty = true;
            while self.reader.inside(inner > 0, !empty)? {
                self.form(inner - 1)?;
                empty = false;
            }
            return self.plan.repeat(start, count);
        };
        let step = self.reader.call(v)?;
        self.plan.push(step)
    }

    // The form of a line, whose bracket has been read.
    fn line_form(&mut self) -> Result<(), ReaderFault>
        ensures forms { ReadsForm result 15 self.old self.new }
        ensures shorter { Shortens result self.old.reader self.new.reader }
    {
        self.form(INNER)
    }

    // One line: a form, or none.
    #[tactic(auto, using(crate::proofs::Lined::lined_form, crate::proofs::Lined::lined_none))]
    fn line(&mut self) -> Result<(), ReaderFault>
        ensures lines { ReadsLine result self.old self.new }
        ensures eats { Eats result self.old.reader self.new.reader }
    {
        if self.reader.outside()? {
            self.line_form()?;
            self.reader.line_end()?;
        }
        Ok(())
    }
}

// The steps of a script, or why it is refused.
#[tactic(auto, using(crate::proofs::Back::exactly_one, crate::proofs::Lined::behind_more))]
pub fn read<'a>(heap: Global, script: &'a [u8]) -> Result<Vec<Step<'a>>, ReaderFault>
    ensures exact { MatchResult result (λ v. Steps script.now v.items) (λ f. Refusal script.now f) }
    ensures one { ExactlyOne script.now }
    ensures back { (fs : Forms) → Lawful fs → script.now ≡ written fs → MatchResult result (λ v. ReadBack fs v.items) (λ f. f ≡ Memory) }
{
    if script.len() > MOST_BYTES {
        return Err(ReaderFault::TooLong);
    }
    let mut expander = Expander {
        reader: Reader {
            rest: script,
            line: 1,
            column: 1,
        },
        plan: Plan::new(heap),
    };
    while !expander.reader.is_done() {
        expander.line()?;
    }
    expander.plan.into_steps().ok_or(ReaderFault::TooLong)
}
