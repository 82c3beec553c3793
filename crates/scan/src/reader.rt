// The place that has been reached in a script.
ghost use Rattle.std.specs.Prelude.{◌+◌, ◌≤◌, length};

// What is still to be read, and the line and column of its first byte.
// A reader is made where a script has been found to be short enough that lines and columns cannot overflow.
#[derive(Drop)]
pub struct Reader<'a> {
    pub rest: &'a [u8],
    pub line: u32,
    pub column: u32,
    ghost counted: { 1 ≤ column },
    ghost small: { line + column + length rest.now ≤ 16386 },
}
