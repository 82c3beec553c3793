// Reads words and arguments.
ghost use Rattle.std.specs.Prelude.{◌≡◌, ◌<◌, true, List, [], IfOk, replicate};
ghost use Rattle.scan.specs.declared.types.Verb.{Verb};
ghost use Rattle.scan.specs.declared.types.Verb.TheVariants as verb;
ghost use Rattle.scan.specs.Words.{natural_of, Arg, a_number, kinds};
ghost use Rattle.scan.specs.Forms.{Open, arguing};
ghost use Rattle.scan.specs.Taking.{PicksBy, PicksFrom, GoesOn, Shortens, Eats, ahead, left, said_numbers, said_step, head_of, inside_of, outside_of, line_end_of};

use crate::reader::Reader;
use crate::types::{ReaderFault, Step, Token, Verb};
use crate::words::{
    close_of, head_of, inside_of, layout_of, line_end_of, natural_of, outside_of, signed_of,
    text_of,
};

// An argument is a number of 31 bits, and a script opens no store with more cells.
const MOST_NUMBER: u32 = 2_147_483_647;

const MOST_CELLS: u32 = 4_096;

impl<'a> Reader<'a> {
    // What a function takes the next token for, or the fault there.
    fn pick<T, F: FnOnce(Token<'a>) -> Option<T>>(&mut self, take: F) -> Result<T, ReaderFault>
        requires { F.IsAlwaysCallable take }
        ensures picks { PicksBy (F.post take) (ahead self.old) result self.new }
        ensures shorter { Shortens result self.old self.new }
        ensures eats { Eats result self.old self.new }
    {
        let t = self.token()?;
        take(t.token).ok_or(ReaderFault::Unfit(t.at))
    }

    // A number without a minus, from `low` to `high`.
    pub fn natural(&mut self, low: u32, high: u32) -> Result<u32, ReaderFault>
        ensures picks { PicksFrom (natural_of low high) (ahead self.old) result self.new }
        ensures shorter { Shortens result self.old self.new }
    {
        self.pick(|t| natural_of(t, low, high))
    }

    fn argument(&mut self) -> Result<u32, ReaderFault>
        ensures picks { PicksFrom (natural_of 0 2147483647) (ahead self.old) result self.new }
        ensures shorter { Shortens result self.old self.new }
    {
        self.natural(0, MOST_NUMBER)
    }

    // Numbers, and the closing bracket.
    fn arguments<const N: usize>(&mut self) -> Result<[u32; N], ReaderFault>
        ensures onward { (v : Verb) (got : List Arg) (k : Open) → GoesOn (arguing v got (replicate N a_number) k) self.old result (said_numbers v got k) self.new }
        ensures shorter { Shortens result self.old self.new }
    {
        let mut numbers = [0; N];
        for number in &mut numbers {
            *number = self.argument()?;
        }
        self.pick(close_of)?;
        Ok(numbers)
    }

    // The arguments of `open`.
    fn opening(&mut self) -> Result<Step<'a>, ReaderFault>
        ensures onward { (k : Open) → GoesOn (arguing verb.Open [] (kinds verb.Open) k) self.old result (said_step k) self.new }
        ensures shorter { Shortens result self.old self.new }
    {
        let layout = self.pick(layout_of)?;
        let cells = self.natural(1, MOST_CELLS)?;
        let [bins] = self.arguments::<1>()?;
        Ok(Step::Open(layout, cells, bins))
    }

    fn number(&mut self) -> Result<Step<'a>, ReaderFault>
        ensures onward { (k : Open) → GoesOn (arguing verb.Number [] (kinds verb.Number) k) self.old result (said_step k) self.new }
        ensures shorter { Shortens result self.old self.new }
    {
        let r = self.argument()?;
        let i = self.pick(signed_of)?;
        self.pick(close_of)?;
        Ok(Step::Number(r, i))
    }

    fn entering(&mut self) -> Result<Step<'a>, ReaderFault>
        ensures onward { (k : Open) → GoesOn (arguing verb.Text [] (kinds verb.Text) k) self.old result (said_step k) self.new }
        ensures shorter { Shortens result self.old self.new }
    {
        let r = self.argument()?;
        let text = self.pick(text_of)?;
        self.pick(close_of)?;
        Ok(Step::Text(r, text))
    }

    // The arguments of a call, and its closing bracket.
    pub fn call(&mut self, v: Verb) -> Result<Step<'a>, ReaderFault>
        ensures onward { (k : Open) → GoesOn (arguing v [] (kinds v) k) self.old result (said_step k) self.new }
        ensures shorter { Shortens result self.old self.new }
    {
        match v {
            Verb::Open => self.opening(),
            Verb::Number => self.number(),
            Verb::Text => self.entering(),
            Verb::Null => Ok(Step::Null(self.arguments::<1>()?[0])),
            Verb::Kind => Ok(Step::Kind(self.arguments::<1>()?[0])),
            Verb::Read => Ok(Step::Read(self.arguments::<1>()?[0])),
            Verb::Collect => Ok(Step::Collect(self.arguments::<1>()?[0])),
            Verb::Copy => {
                let [r, s] = self.arguments::<2>()?;
                Ok(Step::Copy(r, s))
            }
            Verb::Fetch => {
                let [r, s] = self.arguments::<2>()?;
                Ok(Step::Fetch(r, s))
            }
            Verb::Store => {
                let [r, s] = self.arguments::<2>()?;
                Ok(Step::Store(r, s))
            }
            Verb::Same => {
                let [r, s] = self.arguments::<2>()?;
                Ok(Step::Same(r, s))
            }
            Verb::Make => {
                let [r, n, t] = self.arguments::<3>()?;
                Ok(Step::Make(r, n, t))
            }
            Verb::Name => {
                let [r, s, k] = self.arguments::<3>()?;
                Ok(Step::Name(r, s, k))
            }
            Verb::Divide => {
                let [r, s, q] = self.arguments::<3>()?;
                Ok(Step::Divide(r, s, q))
            }
        }
    }

    // What stands behind a form's bracket.
    pub fn head(&mut self, first: bool) -> Result<Option<Verb>, ReaderFault>
        ensures picks { PicksFrom (head_of first) (ahead self.old) result self.new }
        ensures shorter { Shortens result self.old self.new }
    {
        self.pick(|t| head_of(t, first))
    }

    // Inside a `times`: whether a bracket opens or closes.
    pub fn inside(&mut self, may_open: bool, may_close: bool) -> Result<bool, ReaderFault>
        ensures picks { PicksFrom (inside_of may_open may_close) (ahead self.old) result self.new }
        ensures shorter { Shortens result self.old self.new }
        ensures eats { IfOk result (λ b. (b ≡ true → left self.new < left self.old)) }
        ensures may { IfOk result (λ b. (b ≡ true → may_open ≡ true)) }
    {
        self.pick(|t| inside_of(t, may_open, may_close))
    }

    // Where a line begins: whether a bracket opens or the line ends.
    pub fn outside(&mut self) -> Result<bool, ReaderFault>
        ensures picks { PicksFrom outside_of (ahead self.old) result self.new }
        ensures shorter { Shortens result self.old self.new }
        ensures eats { Eats result self.old self.new }
    {
        self.pick(outside_of)
    }

    // The end of a line.
    pub fn line_end(&mut self) -> Result<(), ReaderFault>
        ensures picks { PicksFrom line_end_of (ahead self.old) result self.new }
        ensures shorter { Shortens result self.old self.new }
    {
        self.pick(line_end_of)
    }
}
