// Splits one token after another off a script.
ghost use Rattle.std.specs.Prelude.{◌≡◌, ◌+◌, ◌^◌, ◌≤◌, ◌&&◌, Some, None, cond, nat_le, length, take, drop, MatchOption, ◌==◌};
ghost use Rattle.scan.specs.Tokens.{parting, printable, value, digits, wordly, plain_run, run_token, next_here, closed};
ghost use Rattle.scan.specs.Taking.{Classified, FindsHere, TakesFrom, Shortens, Eats, ahead};

use crate::reader::Reader;
use crate::types::{Placed, ReaderFault, Spot, Token};

// A space, a line's end or a bracket: what a word, a number or a text ends before.
fn parts(b: u8) -> bool
    ensures { result ≡ parting b }
{
    matches!(b, b' ' | b'\n' | b'(' | b')')
}

// What may stand in a text.
fn is_printable(b: u8) -> bool
    ensures { result ≡ printable b }
{
    matches!(b, b' '..=b'~') && b != b'"'
}

// The number that digits write, where 32 bits hold it.
fn value_of(digits: &[u8]) -> Option<u32>
    ensures { MatchOption result (2 ^ 32 ≤ value digits.now) (λ n. n ≡ value digits.now) }
{
    let mut value: u32 = 0;
    for d in digits {
        value = value
            .checked_mul(10)?
            .checked_add(u32::from(d.saturating_sub(b'0')))?;
    }
    Some(value)
}

fn are_digits(bytes: &[u8]) -> bool
    ensures { result ≡ digits bytes.now }
{
    !bytes.is_empty() && bytes.iter().all(u8::is_ascii_digit)
}

fn is_word(bytes: &[u8]) -> bool
    ensures { result ≡ wordly bytes.now }
{
    match bytes {
        [first, rest @ ..] => {
            first.is_ascii_alphabetic() && rest.iter().all(u8::is_ascii_alphanumeric)
        }
        [] => false,
    }
}

// The number that the bytes write, where they are digits and it is at most so much.
fn number(bytes: &[u8], most: u32) -> Option<u32>
    ensures { result ≡ cond (digits bytes.now && nat_le (value bytes.now) most) (Some (value bytes.now)) None }
{
    if !are_digits(bytes) {
        return None;
    }
    value_of(bytes).filter(|n| *n <= most)
}

// The token that a run of bytes without a space or a bracket is.
fn classify<'a>(run: &'a [u8]) -> Option<Token<'a>>
    ensures { Classified result (run_token run.now) }
{
    match run {
        [b'-', digits @ ..] => Some(Token::Negative(number(digits, i32::MIN.unsigned_abs())?)),
        _ if is_word(run) => Some(Token::Word(run)),
        _ => Some(Token::Natural(number(run, i32::MAX.unsigned_abs())?)),
    }
}

// Whether a text of `n` bytes is closed there, and parted from the next token.
fn is_closed(bytes: &[u8], n: usize) -> bool
    ensures { result ≡ closed n bytes.now }
{
    match bytes.get(n..) {
        Some([b'"']) => true,
        Some([b'"', after, ..]) => parts(*after),
        _ => false,
    }
}

impl<'a> Reader<'a> {
    // Goes on by the first `n` bytes of the line, and answers them.
    fn split_off(&mut self, n: usize) -> &'a [u8]
        requires { n ≤ length self.old.rest.now }
        ensures part { result.now ≡ take n self.old.rest.now }
        ensures rest { self.new.rest.now ≡ drop n self.old.rest.now }
        ensures line { self.new.line ≡ self.old.line }
        ensures column { self.new.column ≡ self.old.column + n }
    {
        let (part, rest) = self.rest.split_at(n);
        self.rest = rest;
        self.column += n as u32;
        part
    }

    // Goes on behind a text of `n` bytes and its two quotes, and answers the text.
    fn split_text(&mut self, n: usize) -> &'a [u8]
        requires { n + 2 ≤ length self.old.rest.now }
        ensures part { result.now ≡ take n (drop 1 self.old.rest.now) }
        ensures rest { self.new.rest.now ≡ drop (n + 2) self.old.rest.now }
        ensures line { self.new.line ≡ self.old.line }
        ensures column { self.new.column ≡ self.old.column + (n + 2) }
    {
        let quoted = self.split_off(n + 2);
        &quoted[1..n + 1]
    }

    // The token that begins here, where one can be read.
    fn token_here(&mut self) -> Option<Token<'a>>
        ensures { FindsHere (next_here self.old.line self.old.column self.old.rest.now) result self.new }
    {
        match self.rest {
            [] => Some(Token::LineEnd),
            [b'\n', rest @ ..] => {
                self.rest = rest;
                self.line += 1;
                self.column = 1;
                Some(Token::LineEnd)
            }
            [b'(', ..] => {
                self.split_off(1);
                Some(Token::Open)
            }
            [b')', ..] => {
                self.split_off(1);
                Some(Token::Close)
            }
            [b'"', rest @ ..] => {
                let n = rest.iter().take_while(|b| is_printable(**b)).count();
                if is_closed(rest, n) {
                    Some(Token::Text(self.split_text(n)))
                } else {
                    None
                }
            }
            run => {
                let n = run.iter().take_while(|b| !parts(**b)).count();
                classify(self.split_off(n))
            }
        }
    }

    // The next token. A line's end is one, and so is the script's end, however often it is asked.
    pub fn token(&mut self) -> Result<Placed<'a>, ReaderFault>
        ensures took { TakesFrom (ahead self.old) result self.new }
        ensures shorter { Shortens result self.old self.new }
        ensures eats { Eats result self.old self.new }
    {
        let spaces = self.rest.iter().take_while(|b| **b == b' ').count();
        self.split_off(spaces);
        let at = Spot {
            line: self.line,
            column: self.column,
        };
        let token = self.token_here().ok_or(ReaderFault::NoToken(at))?;
        Ok(Placed { at, token })
    }

    pub fn is_done(&self) -> bool
        ensures { result ≡ (length self.now.rest.now == 0) }
    {
        self.rest.is_empty()
    }
}
