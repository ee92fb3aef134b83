//! Lines as the tables name them.

use fault_schedule::Control;

/// A control's name, its numbers, and whether `cancel` stands behind them.
#[derive(Debug, Clone, Copy, PartialEq, Eq)]
pub struct Drawn(pub u8, pub u32, pub u32, pub bool);

pub const CUT: u8 = 0;

pub const HEAL: u8 = 1;

pub const CRASH: u8 = 2;

pub const RESTART: u8 = 3;

pub const ELECT: u8 = 4;

pub const LOSE: u8 = 5;

pub const KEEP: u8 = 6;

pub const ROUNDS: u8 = 7;

pub const OTHER: u8 = 8;

/// A control as the tables name it.
pub fn as_named(control: &Control) -> Drawn {
    match *control {
        Control::Cut(a, b) => Drawn(CUT, a, b, false),
        Control::Heal => Drawn(HEAL, 0, 0, false),
        Control::Crash(node) => Drawn(CRASH, node, 0, false),
        Control::Restart(node) => Drawn(RESTART, node, 0, false),
        Control::Elect(part, node, cancel) => Drawn(ELECT, part, node, cancel),
        Control::Lose(kind) => Drawn(LOSE, kind as u32, 0, false),
        Control::Keep => Drawn(KEEP, 0, 0, false),
        Control::Rounds(n) => Drawn(ROUNDS, n, 0, false),
        _ => Drawn(OTHER, 0, 0, false),
    }
}
