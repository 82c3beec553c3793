// Entering a string at the first free cell, behind all of its chain whose number is not greater.
ghost use Rattle.std.specs.Prelude.{◌≡◌, ℕ, ◌+◌, ◌*◌, ◌≤◌, length, Ok};
ghost use Rattle.cells.specs.Meaning.{FitDescriptor};
ghost use Rattle.rules.specs.Keys.{bin, ascension};
ghost use Rattle.rules.specs.Model.{Model, string, string_fields, string_cells};
ghost use Rattle.rules.specs.Arena.{Arena, desc};
ghost use Rattle.arena.specs.Enters.{Backward, code_at, Takes, Writing, Framed, Written, Open, Entered, Fresh};
ghost use Rattle.arena.specs.Growth.{arena_with_text, Grown};

use crate::blocks::lay;
use crate::extent::Extent;
use crate::faults::{HeapFault, Rule};
use crate::strings::{follow, precedes, slot_of};
use crate::titles::pointer_at;
use crate::{CHARACTERS, LINK, STRING, STRING_FIELDS, TITLE};
use cells::{Descriptor, Store};
use rules::{LONGEST_TEXT, string_cells};

// The head or link behind which a string with this number goes.
pub fn place_for<S: Store>(store: &S, head: u32, number: u32) -> Result<u32, HeapFault>
    ensures { (p : ℕ) → Backward (S.memory store.now) number head (S.memory store.now).figures.cells p → result ≡ Ok p }
{
    let mut cell = head;
    for _ in 0..=store.cells() {
        let Some(title) = follow(store.descriptor(cell)?)? else {
            return Ok(cell);
        };
        let link = title.saturating_add(LINK);
        if precedes(number, store.descriptor(link)?) {
            return Ok(cell);
        }
        cell = link;
    }
    Err(HeapFault::Unlawful(Rule::Chains, cell))
}

// The code at one place of a string: after the last character stands the lowest.
pub fn code_for(text: &[u8], lowest: u8, j: u32) -> u8
    ensures { result ≡ code_at text.now lowest j }
{
    text.get(j as usize).copied().unwrap_or(lowest)
}

// Writes the characters of a string into `rows` cells, and the lowest code after the last.
pub fn spell<S: Store>(store: &mut S, at: u32, rows: u32, text: &[u8]) -> Result<(), HeapFault>
    ensures { at + rows ≤ (S.memory store.old).figures.cells → Takes (S.memory store.old) text.now →
        ((result ≡ Ok tt) × Writing (S.memory store.old) at rows text.now (rows * (S.memory store.old).figures.places) (S.memory store.new)) }
{
    let places = store.places();
    let lowest = store.lowest();
    let all = rows.checked_mul(places).ok_or(HeapFault::NoRoom)?;
    for j in 0..all {
        store.set_character(
            at.saturating_add(j / places),
            j % places,
            code_for(text, lowest, j),
        )?;
    }
    Ok(())
}

// Writes a string's title, its null value and label, and its link.
pub fn frame<S: Store>(store: &mut S, at: u32, size: u32, link: Descriptor) -> Result<(), HeapFault>
    ensures { at + 2 + string_fields ≤ (S.memory store.old).figures.cells → size ≤ 65535 → FitDescriptor (S.memory store.old).figures link →
        ((result ≡ Ok tt) × Framed (S.memory store.old) at size link (S.memory store.new)) }
{
    lay(store, at, TITLE | STRING, size, STRING_FIELDS)?;
    store.set_descriptor(at.saturating_add(LINK), link)?;
    Ok(())
}

// The same pointer with another number.
pub fn numbered(d: Descriptor, kind: u32) -> Descriptor
    ensures { result ≡ desc d.value d.flags kind }
{
    Descriptor { kind, ..d }
}

// Writes a string with null fields and this link, and gives the first cell after it.
pub fn write_string<S: Store>(
    store: &mut S,
    next: u32,
    text: &[u8],
    link: Descriptor,
) -> Result<u32, HeapFault>
    ensures { 1 ≤ length text.now → length text.now ≤ 1024 →
        next + string_cells (S.memory store.old).figures.places (length text.now) ≤ (S.memory store.old).figures.cells →
        FitDescriptor (S.memory store.old).figures link → Takes (S.memory store.old) text.now →
        ((result ≡ Ok (next + string_cells (S.memory store.old).figures.places (length text.now))) ×
        Written (S.memory store.old) next text.now link (S.memory store.new)) }
{
    if text.len() > LONGEST_TEXT as usize {
        return Err(HeapFault::LongText);
    }
    let length = text.len() as u32;
    let size = string_cells(length, store.places()).ok_or(HeapFault::Unlawful(Rule::Titles, next))?;
    frame(store, next, length, link)?;
    spell(
        store,
        next.saturating_add(CHARACTERS),
        size - CHARACTERS,
        text,
    )?;
    Ok(next.saturating_add(size))
}

// Enters a string at the first free cell, behind all of its chain whose number is not greater, and gives the first free cell then.
pub fn enter_text<S: Store>(store: &mut S, extent: Extent, text: &[u8]) -> Result<u32, HeapFault>
    ensures entered { (c : ℕ) → 1 ≤ extent.bins → Open (S.memory store.old) extent.«next» (bin extent.bins text.now) (ascension extent.bins text.now) c text.now →
        ((result ≡ Ok (extent.«next» + string_cells (S.memory store.old).figures.places (length text.now))) ×
        Entered (S.memory store.old) extent.«next» text.now (ascension extent.bins text.now) c (S.memory store.new)) }
    ensures grown { (m : Model) (a : Arena) → Fresh m a text.now extent.bins extent.«next» (S.memory store.old) →
        ((result ≡ Ok (extent.«next» + string_cells (S.memory store.old).figures.places (length text.now))) ×
        Grown m a (S.memory store.old) (string text.now) m (arena_with_text (S.memory store.old).figures.places a text.now)
        (S.memory store.new)) }
{
    let (head, number) = slot_of(extent.bins, text)?;
    let place = place_for(store, head, number)?;
    let old = store.descriptor(place)?;
    let end = write_string(store, extent.next, text, numbered(old, number))?;
    let link = pointer_at(extent.next, old.kind)?;
    store.set_descriptor(place, link)?;
    Ok(end)
}
