#![tactic(auto)]
// The functions of the crate tiles as C calls them; c/tiles.h declares them.
ghost use Rattle.std.specs.Prelude.{◌≡◌};
ghost use Rattle.rules.specs.Keys.{key};
ghost use Rattle.rules.specs.Model.{string_cells_or_zero};

// The key of a text, by its bytes. The key of no bytes is 0.
#[unsafe(no_mangle)]
pub extern "C" fn text_key(bytes: &[u8]) -> u32
    ensures { result ≡ key bytes.now }
{
    tiles::text_key(bytes)
}

// The cells of a string of `len` characters, `per_cell` to a cell; 0 outside 1 to 1,024 or 1 to 16.
#[unsafe(no_mangle)]
pub extern "C" fn string_cells(len: u32, per_cell: u32) -> u32
    ensures { result ≡ string_cells_or_zero len per_cell }
{
    tiles::string_cells(len, per_cell)
}
