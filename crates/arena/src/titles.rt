// Titles and pointers: what a descriptor says of its block, and which title a cell belongs to.
ghost use Rattle.std.specs.Prelude.{◌≡◌, ℕ, ◌+◌, ◌<◌, ◌≤◌, true, false, ◌≢◌, ◌^◌, pos, IfOk, Ok, Err};
ghost use Rattle.rules.specs.Arena.{Arena, desc, null_desc};
ghost use Rattle.rules.specs.Model.{Model, Thing};
ghost use Rattle.arena.specs.declared.faults.HeapFault.TheVariants.{Unlawful};
ghost use Rattle.arena.specs.declared.faults.Rule.{Rule};
ghost use Rattle.arena.specs.Stored.{Field};
ghost use Rattle.arena.specs.Titles.{Back, count, with_mark, cells_of, retitled};

use crate::faults::{HeapFault, Rule};
use crate::{CHARACTERS, MARK, NULL, POINTER, STRING, STRING_FIELDS, TITLE};
use cells::{Descriptor, MOST_CELLS, Store};

// The title before a cell, and the distance to it: the number of the field, if the cell is that of a field.
pub fn title_of<S: Store>(store: &S, cell: u32) -> Result<(u32, u32), HeapFault>
    ensures back { (p k : ℕ) → cell ≡ p + k → cell < (S.memory store.now).figures.cells → Back (S.memory store.now) p k → result ≡ Ok (p, k) }
    ensures named { (m : Model) (a : Arena) (x : Thing) (k : ℕ) (f : Field m a (S.memory store.now) x k cell) → result ≡ Ok (f.title, k) }
{
    for at in (0..=cell).rev() {
        if store.descriptor(at)?.flags & TITLE != 0 {
            return Ok((at, cell - at));
        }
    }
    Err(HeapFault::Unlawful(Rule::Titles, cell))
}

// The cell that a pointer holds.
pub fn cell_of(d: Descriptor) -> Result<u32, HeapFault>
    ensures { (p : ℕ) → d.value ≡ pos p → result ≡ Ok p }
{
    u32::try_from(d.value).or(Err(HeapFault::Unlawful(Rule::Values, 0)))
}

// A descriptor that holds a cell.
pub fn with_cell(cell: u32, flags: u8, kind: u32) -> Result<Descriptor, HeapFault>
    ensures holds { cell < 2 ^ 31 → result ≡ Ok (desc (pos cell) flags kind) }
    ensures beyond { 2 ^ 31 ≤ cell → result ≡ Err (Unlawful Rule.Values cell) }
{
    let value = i32::try_from(cell).or(Err(HeapFault::Unlawful(Rule::Values, cell)))?;
    Ok(Descriptor { value, flags, kind })
}

// A pointer to a cell.
pub fn pointer_at(cell: u32, kind: u32) -> Result<Descriptor, HeapFault>
    ensures { cell ≤ 65535 → result ≡ Ok (desc (pos cell) 16 kind) }
{
    with_cell(cell, POINTER, kind)
}

// A title with the mark.
pub fn marked(d: Descriptor) -> Descriptor
    ensures { result ≡ with_mark d }
{
    Descriptor {
        flags: d.flags | MARK,
        ..d
    }
}

// A title in its new cell, without the mark.
pub fn new_title(d: Descriptor, to: u32) -> Result<Descriptor, HeapFault>
    ensures { to ≤ 65535 → result ≡ Ok (retitled d to) }
{
    with_cell(to, d.flags & (TITLE | STRING), d.kind)
}

// The fields of the block with this title.
pub fn field_count(d: Descriptor) -> u32
    ensures { result ≡ count d }
{
    if d.flags & STRING == 0 {
        d.kind
    } else {
        STRING_FIELDS
    }
}

// The cells of the block with this title.
pub fn cells_of(d: Descriptor, places: u32) -> Result<u32, HeapFault>
    ensures exact { 1 ≤ d.kind → d.kind ≤ 65535 → 1 ≤ places → result ≡ Ok (cells_of places d) }
    ensures some { IfOk result (λ n. (1 ≤ n) × (n ≤ 65540)) }
{
    if !(1..=MOST_CELLS).contains(&d.kind) || places == 0 {
        return Err(HeapFault::Unlawful(Rule::Titles, 0));
    }
    if d.flags & STRING == 0 {
        return Ok(d.kind + 1);
    }
    Ok(CHARACTERS + d.kind.div_ceil(places))
}

// The descriptor of null.
pub fn null_value() -> Descriptor
    ensures { result ≡ null_desc }
{
    Descriptor {
        value: 0,
        flags: 0,
        kind: NULL,
    }
}

// Whether a descriptor is that of null.
pub fn is_null(d: Descriptor) -> bool
    ensures yes { result ≡ true → d ≡ null_desc }
    ensures no { result ≡ false → d ≢ null_desc }
{
    d == null_value()
}
