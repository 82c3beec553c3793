// What marking and moving ask of a descriptor.
ghost use Rattle.std.specs.Prelude.{◌≡◌, ◌+◌, ◌<◌, ◌^◌, true, false, ◌≢◌, ◌⊎◌, pos, bit_and, Ok};
ghost use Rattle.rules.specs.Arena.{desc, null_desc};
ghost use Rattle.arena.specs.Titles.{count};

use arena::faults::{HeapFault, Rule};
use arena::titles::{field_count, is_null};
use arena::{MARK, POINTER, STRING};
use cells::Descriptor;

// Whether a descriptor is a pointer.
pub fn is_pointer(d: Descriptor) -> bool
    ensures yes { result ≡ true → bit_and d.flags 16 ≢ 0 }
    ensures no { result ≡ false → bit_and d.flags 16 ≡ 0 }
{
    d.flags & POINTER != 0
}

// Whether a title has the mark.
pub fn is_marked(title: Descriptor) -> bool
    ensures yes { result ≡ true → bit_and title.flags 8 ≢ 0 }
    ensures no { result ≡ false → bit_and title.flags 8 ≡ 0 }
{
    title.flags & MARK != 0
}

// Whether a title is that of a string.
pub fn is_string(title: Descriptor) -> bool
    ensures yes { result ≡ true → bit_and title.flags 4 ≢ 0 }
    ensures no { result ≡ false → bit_and title.flags 4 ≡ 0 }
{
    title.flags & STRING != 0
}

// Whether a string holds something: its value or its label is not null.
pub fn holds(value: Descriptor, label: Descriptor) -> bool
    ensures yes { result ≡ true → (value ≢ null_desc) ⊎ (label ≢ null_desc) }
    ensures no { result ≡ false → (value ≡ null_desc) × (label ≡ null_desc) }
{
    !is_null(value) || !is_null(label)
}

// The first cell of the fields of the block with this title, and the first cell after them.
pub fn field_cells(at: u32, title: Descriptor) -> Result<(u32, u32), HeapFault>
    ensures { at + 1 + count title < 2 ^ 32 → result ≡ Ok (at + 1, at + 1 + count title) }
{
    let first = at.saturating_add(1);
    let end = first
        .checked_add(field_count(title))
        .ok_or(HeapFault::Unlawful(Rule::Titles, at))?;
    Ok((first, end))
}

// A head or link behind which no string is left.
pub fn last_link(d: Descriptor) -> Descriptor
    ensures { result ≡ desc (pos 0) 0 d.kind }
{
    Descriptor {
        value: 0,
        flags: 0,
        ..d
    }
}
