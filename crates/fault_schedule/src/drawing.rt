//! Control lines drawn by a seed.
ghost use Rattle.std.specs.Prelude.{◌≡◌, ◌≤◌, ◌+◌, ◌%◌, IfOk};
ghost use Rattle.rand_core.specs.Stream.{next_u32};
ghost use Rattle.fault_schedule.specs.Drawing as spec;

use crate::control::{Control, Controls};
use lists::NoMemory;
use rand_core::{Rng, SeedableRng};
use rand_pcg::Lcg64Xsh32;
use std::alloc::Global;

/// The `count` control lines that `seed` draws for a world of so many nodes and parts, in their order. Refused for
/// want of memory alone.
pub fn schedule(
    alloc: Global,
    seed: u64,
    count: u32,
    nodes: u32,
    parts: u32,
) -> Result<Controls, NoMemory>
    requires nodes { (1 ≤ nodes) × (nodes ≤ 8) }
    requires parts { (1 ≤ parts) × (parts ≤ 64) }
    ensures ok { IfOk result (λ controls. controls ≡ spec.schedule seed count nodes parts) }
{
    let mut rng = Lcg64Xsh32::seed_from_u64(seed);
    let mut controls = Controls::with_capacity(alloc, count as usize)?;
    for _ in 0..count {
        controls.push(draw(&mut rng, nodes, parts))?;
    }
    Ok(controls)
}

/// The next drawn line: a word for its kind, and one for each of its numbers.
#[tactic(auto, unfolding(crate::specs::Drawing::drawn))]
fn draw(rng: &mut Lcg64Xsh32, nodes: u32, parts: u32) -> Control
    requires nodes { (1 ≤ nodes) × (nodes ≤ 8) }
    requires parts { (1 ≤ parts) × (parts ≤ 64) }
    ensures { (result, spec.stream_at rng.new) ≡ spec.drawn nodes parts (spec.stream_at rng.old) }
{
    match rng.next_u32() % 8 {
        0 => {
            let from = number(rng, nodes);
            Control::Cut(from, number(rng, nodes))
        }
        1 => Control::Heal,
        2 => Control::Crash(number(rng, nodes)),
        3 => Control::Restart(number(rng, nodes)),
        4 => {
            let part = number(rng, parts);
            let node = number(rng, nodes);
            Control::Elect(part, node, rng.next_u32() % 2 == 1)
        }
        5 => Control::Lose(number(rng, 14) as u8),
        6 => Control::Keep,
        _ => Control::Rounds(1),
    }
}

/// A number from 1 to so many, by the next word.
fn number(rng: &mut Lcg64Xsh32, most: u32) -> u32
    requires { (1 ≤ most) × (most ≤ 64) }
    ensures is { (result, spec.stream_at rng.new) ≡ spec.number most (spec.stream_at rng.old) }
    ensures within { (1 ≤ result) × (result ≤ most) }
{
    rng.next_u32() % most + 1
}
