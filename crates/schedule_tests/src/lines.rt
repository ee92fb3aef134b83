use crate::drawn::{CRASH, CUT, Drawn, ELECT, HEAL, KEEP, LOSE, OTHER, RESTART, ROUNDS, as_named};
use fault_schedule::{Control, read_control, schedule};
use lists::NoMemory;

/// What seed 10 draws for 3 nodes and 8 parts.
const SEED_10: [Drawn; 14] = [
    Drawn(LOSE, 8, 0, false),
    Drawn(HEAL, 0, 0, false),
    Drawn(ROUNDS, 1, 0, false),
    Drawn(CUT, 2, 3, false),
    Drawn(KEEP, 0, 0, false),
    Drawn(CRASH, 3, 0, false),
    Drawn(LOSE, 4, 0, false),
    Drawn(ROUNDS, 1, 0, false),
    Drawn(LOSE, 5, 0, false),
    Drawn(ELECT, 4, 1, false),
    Drawn(CUT, 2, 1, false),
    Drawn(RESTART, 1, 0, false),
    Drawn(ELECT, 6, 2, false),
    Drawn(CUT, 2, 2, false),
];

/// Lines, and what is read of them.
const READ: [(&[u8], Option<Drawn>); 9] = [
    (b":cut 1 2", Some(Drawn(CUT, 1, 2, false))),
    (b":heal  \r", Some(Drawn(HEAL, 0, 0, false))),
    (b":elect 3 2 cancel", Some(Drawn(ELECT, 3, 2, true))),
    (b":lose notleader", Some(Drawn(LOSE, 3, 0, false))),
    (b":rounds 64", Some(Drawn(ROUNDS, 64, 0, false))),
    (b":rounds 65", None),
    (b":cut 1  2", None),
    (b":crash 01", None),
    (b":again resume 0", Some(Drawn(OTHER, 0, 0, false))),
];

/// The first place at which the controls aren't those of the table.
fn first_apart(controls: &[Control], table: &[Drawn]) -> Option<usize> {
    if controls.len() != table.len() {
        return Some(controls.len());
    }
    (0..table.len()).find(|at| as_named(&controls[*at]) != table[*at])
}

#[test]
fn a_seed_draws_its_lines(rt: HostRuntime) -> Result<(), NoMemory> {
    let controls = schedule(rt.alloc(), 10, 14, 3, 8)?;
    assert_eq!(rt; first_apart(controls.as_slice(), &SEED_10), None);
    Ok(())
}

#[test]
fn lines_are_read(rt: HostRuntime) {
    for (line, control) in READ {
        assert!(rt; read_control(line).map(|control| as_named(&control)) == control);
    }
}
