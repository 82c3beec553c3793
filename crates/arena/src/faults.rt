// Why the heap refuses: its store does, or one of its own checks.
ghost use Rattle.std.specs.Prelude.{◌≡◌};
ghost use Rattle.arena.specs.declared.faults.HeapFault.TheVariants.{Cells};
ghost use Rattle.arena.specs.Faults.{rule_number, heap_number, heap_layer, heap_place, heap_rule};

use cells::StoreFault;
use rules::Layer;

// The rules of a lawful arena, in the order in which they are looked at: where next lies, titles, values, heads and links,
// padding, chains, and that no text stands twice.
#[derive(Clone, Copy, PartialEq, Eq, Debug)]
pub enum Rule {
    Next,
    Titles,
    Values,
    Links,
    Padding,
    Chains,
    Texts,
}

impl Rule {
    // The number that reports give.
    pub fn number(self) -> u32
        ensures { result ≡ rule_number self }
    {
        match self {
            Rule::Next => 1,
            Rule::Titles => 2,
            Rule::Values => 3,
            Rule::Links => 4,
            Rule::Padding => 5,
            Rule::Chains => 6,
            Rule::Texts => 7,
        }
    }
}

// A store's fault is carried whole, with the place of the character that it refuses, or 0. A field that is not there is told
// by its number, and an unlawful arena by the broken rule and its cell.
#[derive(Clone, Copy, PartialEq, Eq, Debug)]
pub enum HeapFault {
    Cells(StoreFault, u32),
    NoField(u32),
    BadMake,
    LongText,
    NoRoom,
    Unlawful(Rule, u32),
}

impl From<StoreFault> for HeapFault {
    ghost from_gives = { λ s h. h ≡ Cells s 0 };

    fn from(s: StoreFault) -> HeapFault {
        HeapFault::Cells(s, 0)
    }
}

impl HeapFault {
    // The number that reports give: a store's fault keeps its own.
    pub fn number(self) -> u32
        ensures { result ≡ heap_number self }
    {
        match self {
            HeapFault::Cells(s, _) => s.number(),
            HeapFault::NoField(_) => 10,
            HeapFault::BadMake => 11,
            HeapFault::LongText => 12,
            HeapFault::NoRoom => 16,
            HeapFault::Unlawful(_, _) => 17,
        }
    }

    // The layer whose check refuses.
    pub fn layer(self) -> Layer
        ensures { result ≡ heap_layer self }
    {
        match self {
            HeapFault::Cells(_, _) => Layer::Store,
            _ => Layer::Heap,
        }
    }

    // The place of the first bad character, the field, or the cell that breaks a rule; else 0.
    pub fn place(self) -> u32
        ensures { result ≡ heap_place self }
    {
        match self {
            HeapFault::Cells(_, place) => place,
            HeapFault::NoField(field) => field,
            HeapFault::Unlawful(_, cell) => cell,
            _ => 0,
        }
    }

    // The rule that an unlawful arena breaks; else 0.
    pub fn rule(self) -> u32
        ensures { result ≡ heap_rule self }
    {
        match self {
            HeapFault::Unlawful(rule, _) => rule.number(),
            _ => 0,
        }
    }
}
