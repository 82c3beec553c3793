#![tactic(auto)]
// An arena over any store of cells: titles, values, fields, blocks and strings, read and added to.
pub mod blocks;
pub mod entering;
pub mod extent;
pub mod faults;
pub mod fields;
pub mod opening;
pub mod strings;
pub mod texts;
pub mod titles;
pub mod values;

// The flags of a descriptor.
pub const TITLE: u8 = 2;

pub const STRING: u8 = 4;

pub const MARK: u8 = 8;

pub const POINTER: u8 = 16;

// The kinds of values: a pointer to a block has the block's type.
pub const NULL: u32 = 1;

pub const TEXT: u32 = 1;

pub const NUMBER: u32 = 6;

pub const NAME: u32 = 9;

pub const FIRST_TYPE: u32 = 16;

pub const LAST_TYPE: u32 = 255;

// No block has more fields.
pub const MOST_FIELDS: u32 = 4_096;

// A string has a value and a label.
pub const STRING_FIELDS: u32 = 2;

// From a string's title to its link, and to its first characters.
pub const LINK: u32 = 1 + STRING_FIELDS;

pub const CHARACTERS: u32 = 2 + STRING_FIELDS;
