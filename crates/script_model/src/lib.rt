//! What a driver does for a script's lines: what it means that a run of the world follows a script.
//!
//! A driver has a desk: what is left to do, in order, the faults that are set, and the schema. Each line gives it duties, and a duty
//! may give others in its place, by the world as it then is. A duty is done at a quiet point, but for those that stand together with
//! the one before: statements that start together, and the elections of a new space. On the way to a quiet point what clients owe
//! is made, and packets are delivered, the first time, or lost. A day is all of this, pace by pace; it may end anywhere.
//!
//! **Claimed**, in `laws.rt`: the doings of a day, and so of a run that follows a script, are a run of the world ([`days_are_runs`],
//! [`scripts_are_runs`]); what comes first in a day is a day ([`days_may_end_anywhere`]); and a driver's own doing stands at a quiet
//! point, or beside the one before ([`drivers_wait_for_quiet`]).
//!
//! To believe, in this order: `specs/Duties`; `specs/Rounds` (what one Round is); `specs/Opening` (what a line gives to do);
//! `specs/Faults` and `Way` (what happens on the way); `specs/Day`, and `specs/Script`; lines worked by hand stand in `specs/Worked`. Lines that move parts are not among them yet:
//! no day goes on behind one. Nor do they say yet what a line is answered.
//!
//! Below are `script_lines`, what a line says, and `world_model`, the world; above is the driver, whose journal follows the script.
#![tactic(auto)]

mod laws;

pub use laws::{
    days_are_runs, days_may_end_anywhere, drivers_wait_for_quiet, scripts_are_runs, worked_lines,
};
