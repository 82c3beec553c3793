// Cells in 64-bit words: characters of six bits.
ghost use Rattle.std.specs.Prelude.{◌≡◌, ◌^◌, ◌<◌, ◌≤◌, replicate, IfOk, OnErr, OnOk};
ghost use Rattle.cells.specs.Meaning.{WritesDescriptor, WritesCharacter, Moves};
ghost use Rattle.layouts.specs.Sixbit.{shown, word_descriptor, word_character, OneWord, SameCell, OnePlace};
ghost use Rattle.std.proofs.Common.{rules};

use cells::{Descriptor, MOST_CELLS, Store, StoreFault};
use std::alloc::{AllocError, Global};

const PLACES: u32 = 10;

const LARGEST: u32 = 0xf_ffff;

const LOWEST: u8 = 32;

const HIGHEST: u8 = 95;

const USED_BITS: u64 = 0x0fff_ffff_ffff_ffff;

// One word to a cell. Words past the first 65,535 are kept and never looked at.
#[derive(Drop)]
pub struct Sixbit {
    words: Vec<u64>,
}

impl Sixbit {
    pub fn new(words: Vec<u64>) -> Self
        ensures { result.words ≡ words }
    {
        Self { words }
    }

    // A store of so many cells, or of 65,535 where that is fewer, each zero.
    pub fn with_cells(heap: Global, cells: u32) -> Result<Self, AllocError>
        ensures { IfOk result (λ s. s.words.items ≡ replicate cells 0) }
    {
        Ok(Sixbit {
            words: vec![in heap; 0; cells as usize]?,
        })
    }

    pub fn into_words(self) -> Vec<u64>
        ensures { result ≡ self.words }
    {
        let Sixbit { words } = self;
        words
    }
}

impl Store for Sixbit {
    ghost memory = { λ s. shown s.words.items };

    ghost sound = { Prim.search rules };

    fn cells(&self) -> u32 {
        self.words.len().min(MOST_CELLS as usize) as u32
    }

    fn places(&self) -> u32 {
        PLACES
    }

    fn largest(&self) -> u32 {
        LARGEST
    }

    fn lowest(&self) -> u8 {
        LOWEST
    }

    fn highest(&self) -> u8 {
        HIGHEST
    }

    fn descriptor(&self, cell: u32) -> Result<Descriptor, StoreFault> {
        self.check_cell(cell)?;
        Ok(unpack(self.words[cell as usize]))
    }

    fn character(&self, cell: u32, place: u32) -> Result<u8, StoreFault> {
        self.check_cell(cell)?;
        self.check_place(place)?;
        Ok(character_at(self.words[cell as usize], place))
    }

    fn set_descriptor(&mut self, cell: u32, d: Descriptor) -> Result<(), StoreFault>
        ensures answer { WritesDescriptor (shown self.old.words.items) cell d (shown self.new.words.items) result }
        ensures kept { OnErr result (self.new ≡ self.old) }
        ensures words { OnOk result (OneWord self.old.words.items cell self.new.words.items) }
    {
        self.check_cell(cell)?;
        self.check_descriptor(d)?;
        self.words[cell as usize] = pack(d);
        Ok(())
    }

    fn set_character(&mut self, cell: u32, place: u32, code: u8) -> Result<(), StoreFault>
        ensures answer { WritesCharacter (shown self.old.words.items) cell place code (shown self.new.words.items) result }
        ensures kept { OnErr result (self.new ≡ self.old) }
        ensures words { OnOk result (OneWord self.old.words.items cell self.new.words.items) }
    {
        self.check_cell(cell)?;
        self.check_place(place)?;
        self.check_code(code)?;
        let word = self.words[cell as usize];
        self.words[cell as usize] = with_character(word, place, code);
        Ok(())
    }

    fn move_cell(&mut self, from: u32, to: u32) -> Result<(), StoreFault>
        ensures answer { Moves (shown self.old.words.items) from to (shown self.new.words.items) result }
        ensures kept { OnErr result (self.new ≡ self.old) }
        ensures words { OnOk result (OneWord self.old.words.items to self.new.words.items) }
    {
        self.check_cell(from)?;
        self.check_cell(to)?;
        self.words[to as usize] = used(self.words[from as usize]);
        Ok(())
    }
}

// The bits of a word that count.
fn used(word: u64) -> u64
    ensures { SameCell word result }
{
    word & USED_BITS
}

fn unpack(word: u64) -> Descriptor
    ensures { result ≡ word_descriptor word }
{
    Descriptor {
        value: ((word & 0xffff_ffff) as u32).cast_signed(),
        flags: (word >> 52 & 0xff) as u8,
        kind: (word >> 32 & 0xf_ffff) as u32,
    }
}

fn pack(d: Descriptor) -> u64
    requires { (d.flags ≤ 31) × (d.kind ≤ 1048575) }
    ensures { (word_descriptor result ≡ d) × (result < 2 ^ 60) }
{
    u64::from(d.flags) << 52 | u64::from(d.kind) << 32 | u64::from(d.value.cast_unsigned())
}

fn character_at(word: u64, place: u32) -> u8
    requires { place < 10 }
    ensures { result ≡ word_character word place }
{
    LOWEST + (word >> (54 - 6 * place) & 0x3f) as u8
}

// The word with this character at a place, its other places as they were, and its upper four bits clear.
fn with_character(word: u64, place: u32, code: u8) -> u64
    requires { (place < 10) × (32 ≤ code) × (code ≤ 95) }
    ensures { OnePlace word place code result }
{
    let shift = 54 - 6 * place;
    let high = (word & USED_BITS) >> (shift + 6);
    let low = word & ((1 << shift) - 1);
    (high << 6 | u64::from(code - LOWEST)) << shift | low
}
