#![tactic(auto)]
// The rules of the names workspace, as definitions that contracts cite.

ghost use Rattle.rules.specs.Compared.{Compared, Determined, Runs, Unaltered};
ghost use Rattle.std.specs.Prelude.{◌≡◌, ◌+◌, ◌-◌, ◌*◌, ◌/◌, ◌%◌, ◌<◌, ◌≤◌, if◌then◌else◌, Some, None};
ghost use Rattle.rules.specs.Model.{string_cells_or_zero, string_cells_within};
ghost use Rattle.rules.specs.Keys.{key};
ghost use Rattle.rules.specs.Calls.{first, divides, quotient};
ghost use Rattle.rules.specs.Requests.{meant};

// No text is longer.
pub const LONGEST_TEXT: u32 = 1_024;

// No cell has more characters.
pub const MOST_PLACES: u32 = 16;

// No workspace has more bins.
pub const MOST_BINS: u32 = 256;

// The layer whose check refuses.
#[derive(Clone, Copy, PartialEq, Eq, Debug)]
pub enum Layer {
    Store,
    Heap,
    Workspace,
    Reader,
}

// The word of a call, as reports name it.
#[derive(Clone, Copy, PartialEq, Eq, Debug)]
pub enum Word {
    Open,
    Adopt,
    Null,
    Number,
    Copy,
    Make,
    Text,
    Name,
    Fetch,
    Store,
    Divide,
    Kind,
    Read,
    Same,
    Collect,
}

// Every list of calls has a run on the model, and only one.
pub fn runs_determined()
    ensures exist { Runs }
    ensures one { Determined }
{}

// A refused call leaves the model as it was.
pub fn refusals_alter_nothing()
    ensures { Unaltered }
{}

// Two workspaces that get one list of calls: they answer alike up to the first "no room" of either, but for the count of
// collect, and with equal bins and characters to a cell the one with more cells is full no sooner.
pub fn runs_compared()
    ensures { Compared }
{}

// A call with its arguments, as code hands it on: a text lends its bytes, and read names the length of its buffer.
#[derive(Clone, Copy, Debug)]
pub enum Request<'a> {
    Null(u32),
    Number(u32, i32),
    Copy(u32, u32),
    Make(u32, u32, u32),
    Text(u32, &'a [u8]),
    Name(u32, u32, u32),
    Fetch(u32, u32),
    Store(u32, u32),
    Divide(u32, u32, u32),
    Kind(u32),
    Read(u32, u32),
    Same(u32, u32),
    Collect(u32),
}

// The first register of a call, or 0.
pub fn first_register(c: Request) -> u32
    ensures { result ≡ first (meant c.entry) }
{
    match c {
        Request::Null(r)
        | Request::Number(r, _)
        | Request::Copy(r, _)
        | Request::Make(r, _, _)
        | Request::Text(r, _)
        | Request::Name(r, _, _)
        | Request::Fetch(r, _)
        | Request::Store(r, _)
        | Request::Divide(r, _, _)
        | Request::Kind(r)
        | Request::Read(r, _)
        | Request::Same(r, _) => r,
        Request::Collect(_) => 0,
    }
}

// The quotient of two numbers, or None for a divisor 0 and beyond 32 bits.
pub fn quotient_of(a: i32, b: i32) -> Option<i32>
    ensures { result ≡ (if divides a b then Some (quotient a b) else None) }
{
    a.checked_div(b)
}

// The free cells: those from the first free one on.
pub fn free_cells(cells: u32, first: u32) -> u32
    ensures { result ≡ cells - first }
{
    cells.saturating_sub(first)
}

// The cells that `l` characters fill, `c` to a cell.
fn filled(l: u32, c: u32) -> u32
    requires { (1 ≤ l) × (1 ≤ c) }
    ensures { result ≡ (l - 1) / c + 1 }
{
    l.div_ceil(c)
}

// The cells of a string of `l` characters at `c` to a cell, where there can be such a string.
pub fn string_cells(l: u32, c: u32) -> Option<u32>
    ensures { result ≡ string_cells_within l c }
{
    if (1..=LONGEST_TEXT).contains(&l) && (1..=MOST_PLACES).contains(&c) {
        Some(4 + filled(l, c))
    } else {
        None
    }
}

// The same, or 0 where there is none.
pub fn cells_of_string(l: u32, c: u32) -> u32
    ensures { result ≡ string_cells_or_zero l c }
{
    string_cells(l, c).unwrap_or(0)
}

// The key with one code more.
fn mixed(h: u32, code: u8) -> u32
    requires { h < 65521 }
    ensures { result ≡ (31 * h + code) % 65521 }
{
    (31 * h + u32::from(code)) % 65521
}

// The key of some bytes.
pub fn key_of(bytes: &[u8]) -> u32
    ensures { result ≡ key bytes.now }
{
    let mut h = 0u32;
    for b in bytes {
        h = mixed(h, *b);
    }
    h
}
