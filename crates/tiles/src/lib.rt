#![tactic(auto)]
// What the tile server, a C program, asks: the key of a text, and the cells that its string takes.
ghost use Rattle.std.specs.Prelude.{◌≡◌};
ghost use Rattle.rules.specs.Keys.{key};
ghost use Rattle.rules.specs.Model.{string_cells_or_zero};

// The key of a text, by its bytes. The key of no bytes is 0.
pub fn text_key(bytes: &[u8]) -> u32
    ensures { result ≡ key bytes.now }
{
    rules::key_of(bytes)
}

// The cells of a string of `len` characters, `per_cell` to a cell; 0 outside 1 to 1,024 or 1 to 16.
pub fn string_cells(len: u32, per_cell: u32) -> u32
    ensures { result ≡ string_cells_or_zero len per_cell }
{
    rules::cells_of_string(len, per_cell)
}
