// Strings: their characters, and the way along a chain to one of them.
ghost use Rattle.std.specs.Prelude.{◌≡◌, ℕ, ◌+◌, ◌/◌, ◌%◌, ◌<◌, ◌≤◌, true, false, pos, Some, None, Ok, Option as Opt, nat_lt};
ghost use Rattle.rules.specs.Lists.{In};
ghost use Rattle.rules.specs.Keys.{bin, ascension};
ghost use Rattle.rules.specs.Model.{Model, string, string_fields};
ghost use Rattle.rules.specs.Arena.{Arena, At, Shows};
ghost use Rattle.arena.specs.Finds.{Readable, Spells, Sought};

use crate::faults::{HeapFault, Rule};
use crate::titles::cell_of;
use crate::{CHARACTERS, LINK, POINTER};
use cells::{Descriptor, Store};
use rules::key_of;

// The character at place j of the string with this title.
pub(crate) fn character_at<S: Store>(store: &S, title: u32, j: u32) -> Result<u8, HeapFault>
    ensures { Readable (S.memory store.now) title → j < ((S.memory store.now).descriptor title).kind →
        result ≡ Ok ((S.memory store.now).character (title + 2 + string_fields + j / (S.memory store.now).figures.places) (j % (S.memory store.now).figures.places)) }
{
    let places = store.places();
    let first = title.saturating_add(CHARACTERS);
    Ok(store.character(first.saturating_add(j / places), j % places)?)
}

// Whether the string with this title has these characters.
pub fn spells<S: Store>(store: &S, title: u32, text: &[u8]) -> Result<bool, HeapFault>
    ensures { Readable (S.memory store.now) title →
        ((Spells (S.memory store.now) title text.now → result ≡ Ok true) × ((Spells (S.memory store.now) title text.now → ⊥) → result ≡ Ok false)) }
{
    if store.descriptor(title)?.kind as usize != text.len() {
        return Ok(false);
    }
    for (j, code) in text.iter().enumerate() {
        if character_at(store, title, j as u32)? != *code {
            return Ok(false);
        }
    }
    Ok(true)
}

// The bin of a text, and its ascension number.
pub fn slot_of(bins: u32, text: &[u8]) -> Result<(u32, u32), HeapFault>
    ensures { 1 ≤ bins → result ≡ Ok (bin bins text.now, ascension bins text.now) }
{
    if bins == 0 {
        return Err(HeapFault::Unlawful(Rule::Links, 0));
    }
    let key = key_of(text);
    Ok((key % bins, key / bins))
}

// Whether a number is less than that of the string with this link.
pub fn precedes(number: u32, link: Descriptor) -> bool
    ensures { result ≡ nat_lt number link.kind }
{
    number < link.kind
}

// The title of the string to which a head or link points, or None at the end of a chain.
pub fn follow(link: Descriptor) -> Result<Option<u32>, HeapFault>
    ensures last { link.flags ≡ 0 → result ≡ Ok None }
    ensures more { (q : ℕ) → link.flags ≡ 16 → link.value ≡ pos q → result ≡ Ok (Some q) }
{
    if link.flags & POINTER == 0 {
        return Ok(None);
    }
    Ok(Some(cell_of(link)?))
}

// The title of the string with these characters and this number, from a head on.
pub fn seek<S: Store>(
    store: &S,
    head: Descriptor,
    number: u32,
    text: &[u8],
) -> Result<Option<u32>, HeapFault>
    ensures { (p : Opt ℕ) → Sought (S.memory store.now) text.now number head (S.memory store.now).figures.cells p → result ≡ Ok p }
{
    let mut link = head;
    for _ in 0..=store.cells() {
        let Some(title) = follow(link)? else {
            return Ok(None);
        };
        if spells(store, title, text)? {
            return Ok(Some(title));
        }
        link = store.descriptor(title.saturating_add(LINK))?;
        if precedes(number, link) {
            return Ok(None);
        }
    }
    Err(HeapFault::Unlawful(Rule::Chains, 0))
}

// The title of the string with these characters, if the arena has it.
pub fn find<S: Store>(store: &S, bins: u32, text: &[u8]) -> Result<Option<u32>, HeapFault>
    ensures there { (m : Model) (a : Arena) (p : ℕ) → Shows m a (S.memory store.now) → bins ≡ a.bins →
        At m a (S.memory store.now) (string text.now) p → result ≡ Ok (Some p) }
    ensures absent { (m : Model) (a : Arena) → Shows m a (S.memory store.now) → bins ≡ a.bins →
        (In (string text.now) a.order → ⊥) → result ≡ Ok None }
{
    let (cell, number) = slot_of(bins, text)?;
    let head = store.descriptor(cell)?;
    seek(store, head, number, text)
}
