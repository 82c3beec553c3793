// Cells in bytes, eight to a cell: characters of eight bits.
ghost use Rattle.std.specs.Prelude.{◌≡◌, ◌+◌, ◌*◌, ◌≤◌, length, replicate, IfOk, OnErr, OnOk};
ghost use Rattle.cells.specs.Meaning.{WritesDescriptor, WritesCharacter, Moves, WroteDescriptor, Moved};
ghost use Rattle.layouts.specs.Byte8.{shown, bytes_descriptor};
ghost use Rattle.layouts.specs.CellBytes.{byte, OneCell};
ghost use Rattle.std.proofs.Common.{rules};

use cells::{Descriptor, MOST_CELLS, Store, StoreFault};
use std::alloc::{AllocError, Global};

const WIDTH: usize = 8;

const LARGEST: u32 = 0xff_ffff;

// Eight bytes to a cell. Bytes past the last whole cell, or past 65,535 cells, are kept and never looked at.
#[derive(Drop)]
pub struct Byte8 {
    bytes: Vec<u8>,
}

impl Byte8 {
    pub fn new(bytes: Vec<u8>) -> Self
        ensures { result.bytes ≡ bytes }
    {
        Self { bytes }
    }

    // A store of so many cells, or of 65,535 where that is fewer, each zero.
    pub fn with_cells(heap: Global, cells: u32) -> Result<Self, AllocError>
        ensures { IfOk result (λ s. s.bytes.items ≡ replicate (8 * cells) 0) }
    {
        Ok(Self {
            bytes: vec![in heap; 0; WIDTH * cells as usize]?,
        })
    }

    pub fn into_bytes(self) -> Vec<u8>
        ensures { result ≡ self.bytes }
    {
        let Byte8 { bytes } = self;
        bytes
    }
}

impl Store for Byte8 {
    ghost memory = { λ s. shown s.bytes.items };

    ghost sound = { Prim.search rules };

    fn cells(&self) -> u32 {
        (self.bytes.len() / WIDTH).min(MOST_CELLS as usize) as u32
    }

    fn places(&self) -> u32 {
        WIDTH as u32
    }

    fn largest(&self) -> u32 {
        LARGEST
    }

    fn lowest(&self) -> u8 {
        u8::MIN
    }

    fn highest(&self) -> u8 {
        u8::MAX
    }

    fn descriptor(&self, cell: u32) -> Result<Descriptor, StoreFault> {
        self.check_cell(cell)?;
        Ok(read(&self.bytes, cell))
    }

    fn character(&self, cell: u32, place: u32) -> Result<u8, StoreFault> {
        self.check_cell(cell)?;
        self.check_place(place)?;
        Ok(self.bytes[WIDTH * cell as usize + place as usize])
    }

    fn set_descriptor(&mut self, cell: u32, d: Descriptor) -> Result<(), StoreFault>
        ensures answer { WritesDescriptor (shown self.old.bytes.items) cell d (shown self.new.bytes.items) result }
        ensures kept { OnErr result (self.new ≡ self.old) }
        ensures bytes { OnOk result (OneCell 8 self.old.bytes.items cell self.new.bytes.items) }
    {
        self.check_cell(cell)?;
        self.check_descriptor(d)?;
        write(self.bytes.as_mut_slice(), cell, d);
        Ok(())
    }

    fn set_character(&mut self, cell: u32, place: u32, code: u8) -> Result<(), StoreFault>
        ensures answer { WritesCharacter (shown self.old.bytes.items) cell place code (shown self.new.bytes.items) result }
        ensures kept { OnErr result (self.new ≡ self.old) }
        ensures bytes { OnOk result (OneCell 8 self.old.bytes.items cell self.new.bytes.items) }
    {
        self.check_cell(cell)?;
        self.check_place(place)?;
        self.bytes[WIDTH * cell as usize + place as usize] = code;
        Ok(())
    }

    fn move_cell(&mut self, from: u32, to: u32) -> Result<(), StoreFault>
        ensures answer { Moves (shown self.old.bytes.items) from to (shown self.new.bytes.items) result }
        ensures kept { OnErr result (self.new ≡ self.old) }
        ensures bytes { OnOk result (OneCell 8 self.old.bytes.items to self.new.bytes.items) }
    {
        self.check_cell(from)?;
        self.check_cell(to)?;
        copy(self.bytes.as_mut_slice(), from, to);
        Ok(())
    }
}

fn read(bytes: &[u8], cell: u32) -> Descriptor
    requires { 8 * cell + 8 ≤ length bytes.now }
    ensures { result ≡ (shown bytes.now).descriptor cell }
{
    let at = WIDTH * cell as usize;
    unpack(&bytes[at..at + WIDTH])
}

fn write(bytes: &mut [u8], cell: u32, d: Descriptor)
    requires fits { 8 * cell + 8 ≤ length bytes.old }
    requires kind { d.kind ≤ 16777215 }
    ensures wrote { WroteDescriptor (shown bytes.old) cell d (shown bytes.new) }
    ensures one { OneCell 8 bytes.old cell bytes.new }
{
    let at = WIDTH * cell as usize;
    bytes[at..at + WIDTH].copy_from_slice(&pack(d));
}

fn copy(bytes: &mut [u8], from: u32, to: u32)
    requires from { 8 * from + 8 ≤ length bytes.old }
    requires to { 8 * to + 8 ≤ length bytes.old }
    ensures moved { Moved (shown bytes.old) from to (shown bytes.new) }
    ensures one { OneCell 8 bytes.old to bytes.new }
{
    let at = WIDTH * from as usize;
    bytes.copy_within(at..at + WIDTH, WIDTH * to as usize);
}

fn unpack(b: &[u8]) -> Descriptor
    requires { length b.now ≡ 8 }
    ensures { result ≡ bytes_descriptor (byte b.now) }
{
    Descriptor {
        value: i32::from_be_bytes([b[0], b[1], b[2], b[3]]),
        flags: b[4],
        kind: u32::from_be_bytes([0, b[5], b[6], b[7]]),
    }
}

fn pack(d: Descriptor) -> [u8; 8]
    requires { d.kind ≤ 16777215 }
    ensures { bytes_descriptor (byte result) ≡ d }
{
    let [v0, v1, v2, v3] = d.value.to_be_bytes();
    let [_, t0, t1, t2] = d.kind.to_be_bytes();
    [v0, v1, v2, v3, d.flags, t0, t1, t2]
}
