#![tactic(auto)]
// The heap over any store of cells: marking, moving, regeneration and room.
mod blocks;
mod descriptors;
pub mod effects;
mod marking;
mod moving;
pub mod regeneration;
pub mod room;
mod threading;
