//! Which part a vertex belongs to.
ghost use Rattle.std.specs.Prelude.{◌≡◌, ◌≤◌, ◌<◌};
ghost use Rattle.first_part.specs.Routing.{part_number};

use first_graph::Vid;

/// The part of a vertex: its id as an unsigned number of 64 bits, modulo the number of parts, plus 1.
pub fn part_of(v: Vid, parts: u32) -> u32
    requires some { 0 < parts }
    requires few { parts ≤ 64 }
    ensures { result ≡ part_number v parts }
{
    (v.cast_unsigned() % parts as u64) as u32 + 1
}
