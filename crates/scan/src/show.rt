// How steps and faults are displayed.
ghost use Rattle.std.proofs.Math.Utf8.{encodes};
ghost use Rattle.std.specs.Prelude.{Some};
ghost use Rattle.scan.specs.Writing.{quoted, displayed, place, fault_text};
ghost use Rattle.scan.specs.Words.{layout_name};

use crate::types::{Layout, ReaderFault, Spot, Step};
use std::fmt;

impl fmt::Display for Layout {
    ghost output = { λ l. Some (layout_name l) };

    fn fmt<W: fmt::Write>(&self, f: &mut fmt::Formatter<W>) -> fmt::Result {
        match *self {
            Layout::Byte8 => write!(f, "byte8"),
            Layout::Sixbit => write!(f, "sixbit"),
        }
    }
}

// A text in its quotes.
#[derive(Clone, Copy)]
pub struct Quoted<'a>(pub &'a [u8]);

impl fmt::Display for Quoted<'_> {
    ghost output = { λ q. Some (quoted (encodes q.0.now)) };

    fn fmt<W: fmt::Write>(&self, f: &mut fmt::Formatter<W>) -> fmt::Result {
        f.write_char('"')?;
        for b in self.0 {
            f.write_char(char::from(*b))?;
        }
        f.write_char('"')
    }
}

impl fmt::Display for Step<'_> {
    ghost output = { λ s. Some (displayed s) };

    fn fmt<W: fmt::Write>(&self, f: &mut fmt::Formatter<W>) -> fmt::Result {
        match *self {
            Step::Open(layout, cells, bins) => write!(f, "(open {layout} {cells} {bins})"),
            Step::Null(r) => write!(f, "(null {r})"),
            Step::Number(r, i) => write!(f, "(number {r} {i})"),
            Step::Copy(r, s) => write!(f, "(copy {r} {s})"),
            Step::Make(r, n, t) => write!(f, "(make {r} {n} {t})"),
            Step::Text(r, text) => write!(f, "(text {r} {})", Quoted(text)),
            Step::Name(r, s, k) => write!(f, "(name {r} {s} {k})"),
            Step::Fetch(r, s) => write!(f, "(fetch {r} {s})"),
            Step::Store(r, s) => write!(f, "(store {r} {s})"),
            Step::Divide(r, s, q) => write!(f, "(divide {r} {s} {q})"),
            Step::Kind(r) => write!(f, "(kind {r})"),
            Step::Read(r) => write!(f, "(read {r})"),
            Step::Same(r, s) => write!(f, "(same {r} {s})"),
            Step::Collect(n) => write!(f, "(collect {n})"),
        }
    }
}

impl fmt::Display for Spot {
    ghost output = { λ at. Some (place at) };

    fn fmt<W: fmt::Write>(&self, f: &mut fmt::Formatter<W>) -> fmt::Result {
        write!(f, "{} {}", self.line, self.column)
    }
}

impl fmt::Display for ReaderFault {
    ghost output = { λ e. Some (fault_text e) };

    fn fmt<W: fmt::Write>(&self, f: &mut fmt::Formatter<W>) -> fmt::Result {
        match *self {
            ReaderFault::NoToken(at) => write!(f, "(no 18 reader {at})"),
            ReaderFault::Unfit(at) => write!(f, "(no 19 reader {at})"),
            ReaderFault::TooLong => write!(f, "(no 20 reader 0 0)"),
            ReaderFault::Memory => write!(f, "(no memory)"),
        }
    }
}
