// What a descriptor holds.
ghost use Rattle.std.specs.Prelude.{◌≡◌};
ghost use Rattle.cells.specs.Meaning.{Memory};
ghost use Rattle.rules.specs.Model.{Model, Value};
ghost use Rattle.rules.specs.Arena.{Arena, Codes, Proper};
ghost use Rattle.arena.specs.Values.{held, number_held, thing_held, name_held, Means};

use crate::{FIRST_TYPE, LAST_TYPE, NAME, NULL, NUMBER, POINTER, TEXT};
use cells::Descriptor;

// A value as the cells have it: a pointer is the cell that it points at.
#[derive(Clone, Copy)]
pub enum Held {
    Null,
    Number(i32),
    Text(u32),
    Block(u32, u32),
    Name(u32),
    Other,
}

impl Held {
    // The number, if it is one.
    pub fn number(self) -> Option<i32>
        ensures { result ≡ number_held self }
    {
        match self {
            Held::Number(z) => Some(z),
            _ => None,
        }
    }

    // The title of the block or string, if it points at one.
    pub fn thing(self) -> Option<u32>
        ensures { result ≡ thing_held self }
    {
        match self {
            Held::Text(title) | Held::Block(title, _) => Some(title),
            _ => None,
        }
    }

    // The cell of the field, if it is a name.
    pub fn name(self) -> Option<u32>
        ensures { result ≡ name_held self }
    {
        match self {
            Held::Name(cell) => Some(cell),
            _ => None,
        }
    }
}

// The value that a descriptor codes, by its flags and its kind.
pub fn decoded(d: Descriptor) -> Held
    ensures flags { result ≡ held d }
    ensures means { (m : Model) (a : Arena) (o : Memory) (v : Value) → Codes m a o v d → Proper m v → Means m a o v result }
{
    let cell = d.value.unsigned_abs();
    match (d.flags, d.kind) {
        (0, NULL) => Held::Null,
        (0, NUMBER) => Held::Number(d.value),
        (POINTER, TEXT) => Held::Text(cell),
        (POINTER, NAME) => Held::Name(cell),
        (POINTER, FIRST_TYPE..=LAST_TYPE) => Held::Block(cell, d.kind),
        _ => Held::Other,
    }
}
