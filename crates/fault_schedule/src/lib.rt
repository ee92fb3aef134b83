//! The lines of a script that make faults and changes, and such lines drawn by a seed.
//!
//! A control line is a command and its fields, parted by single spaces: `:cut 1 2` cuts the link between two nodes,
//! `:chaos 7 100` asks for a hundred drawn lines. Numbers are decimal digits without leading zeros. A CR at the line's
//! end is dropped, and then the spaces that it ends in.
//!
//! The contract: [`read_control`] gives the control whose words a line has, and none exactly where there is no such
//! control; [`schedule`] gives the lines that a seed draws. The words of each control are `specs/Spelling`, a table
//! with a line for each; how lines are drawn is `specs/Drawing`: these two a reader has to believe. What a control
//! does to a world is said where it is done.
//!
//! Below are lists (crate `lists`) and the kit's generator (`rand_pcg`); above is the driver of a script.
#![tactic(auto)]

mod control;
mod drawing;
mod fields;
mod line;
mod reading;

pub use control::{Control, Controls};
pub use drawing::schedule;
pub use reading::read_control;
