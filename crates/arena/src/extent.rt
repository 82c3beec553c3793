// Where the things of an arena lie.

// The heads are the cells below bins, things lie from there up to next, and next is the first free cell.
#[derive(Clone, Copy, PartialEq, Eq, Debug)]
pub struct Extent {
    pub bins: u32,
    pub next: u32,
}
