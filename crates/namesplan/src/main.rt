#![tactic(auto)]
// Reads names, one to a line, and prints what each takes in either layout, and what an arena for all of them needs. The
// number of bins is the first argument, or 64.
use layouts::bytes::Byte8;
use layouts::words::Sixbit;
use plan::names::names_of;
use plan::tallies::{PlanFault, Tally, cells_in, fullest, plan_for};
use rules::{LONGEST_TEXT, key_of};
use std::alloc::Global;
use std::io::Read;
use std::{env, fmt, io};

const DEFAULT_BINS: u32 = 64;

// So many bytes of a name that is too long are shown.
const SHOWN: usize = 60;

fn bins_given(rt: &HostRuntime) -> anyhow::Result<u32> {
    let Some(word) = env::args(rt)?.nth(1) else {
        return Ok(DEFAULT_BINS);
    };
    Ok(word.parse().map_err(|_| PlanFault::BadBins)?)
}

// The cells of a name as a line shows them: a dash where the layout cannot hold it.
#[derive(Clone, Copy)]
struct Cells(Option<u32>);

impl fmt::Display for Cells {
    fn fmt<W: fmt::Write>(&self, f: &mut fmt::Formatter<W>) -> fmt::Result {
        match self.0 {
            Some(n) => n.fmt(f),
            None => f.pad("-"),
        }
    }
}

// What is to be said of a name that some layout cannot hold.
fn remark(name: &[u8], in_words: Option<u32>) -> &'static str {
    if name.len() > LONGEST_TEXT as usize {
        "..  (too long)"
    } else if in_words.is_none() {
        "  (not in sixbit)"
    } else {
        ""
    }
}

// As much of a name as a line shows.
fn front(name: &[u8]) -> &[u8] {
    if name.len() > LONGEST_TEXT as usize {
        &name[..SHOWN]
    } else {
        name
    }
}

fn print_name(
    rt: &impl Print,
    heap: Global,
    byte8: &Byte8,
    sixbit: &Sixbit,
    name: &[u8],
) -> anyhow::Result<()> {
    let key = key_of(name);
    let in_bytes = Cells(cells_in(byte8, name));
    let in_words = Cells(cells_in(sixbit, name));
    let text = String::from_utf8_lossy(heap, front(name))?;
    let note = remark(name, in_words.0);
    println!(rt; "{key:>5} {in_bytes:>6} {in_words:>6}  {text}{note}")?;
    Ok(())
}

// The lines of a layout: names held, their cells, the arena's cells, and the bins that have the most names.
fn print_layout(rt: &impl Print, layout: &str, tally: &Tally) -> io::Result<()> {
    println!(rt;
        "{layout}: {} names in {} cells, an arena of {} cells",
        tally.names, tally.cells, tally.arena
    )?;
    let most = fullest(&tally.by_bin).unwrap_or(0);
    print!(rt; "{layout}: {most} names in each of the fullest bins:")?;
    for (bin, count) in tally.by_bin.iter().enumerate() {
        if *count == most && most > 0 {
            print!(rt; " {bin}")?;
        }
    }
    println!(rt)
}

fn run(rt: &HostRuntime) -> anyhow::Result<()> {
    let heap = rt.alloc();
    let bins = bins_given(rt)?;
    let byte8 = Byte8::with_cells(heap, 0)?;
    let sixbit = Sixbit::with_cells(heap, 0)?;
    let mut input = Vec::new(heap);
    rt.stdin().read_to_end(&mut input)?;
    let names = names_of(heap, &input)?;
    let in_bytes = plan_for(heap, &byte8, &names, bins)?;
    let in_words = plan_for(heap, &sixbit, &names, bins)?;
    println!(rt; "  key  byte8 sixbit  name")?;
    for name in &names {
        print_name(rt, heap, &byte8, &sixbit, name)?;
    }
    let lines = names.len();
    let distinct = in_bytes.distinct;
    let long = distinct.saturating_sub(in_bytes.names);
    let unfit = in_bytes.names.saturating_sub(in_words.names);
    println!(rt; "{lines} lines, {distinct} names: {long} too long, {unfit} not in sixbit")?;
    println!(rt; "{bins} bins")?;
    print_layout(rt, "byte8", &in_bytes)?;
    print_layout(rt, "sixbit", &in_words)?;
    Ok(())
}

fn main(rt: HostRuntime) -> anyhow::Result<()> {
    run(&rt)
}
