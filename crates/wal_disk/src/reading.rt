//! The records of a file, from its bytes.
ghost use Rattle.std.specs.Prelude.{◌≡◌, ◌≤◌, ◌<◌, ◌+◌, ◌++◌, ◌∷◌, ◌≢◌, ℕ, List, length, drop, IfOk, IfErr, IfSome, None};
ghost use Rattle.byte_fields.specs.Frames.{HasFrame, sized, open_gate};
ghost use Rattle.byte_fields.specs.Versions.{IsVersion};
ghost use Rattle.wal_disk.specs.File.{magic, HasNoMagic, IsFile, IsCutBehind, front};
ghost use Rattle.wal_disk.specs.Reading.{IsBadFile};

use crate::Bodies;
use crate::refused::OpenWhy;
use byte_fields::OPEN_GATE;
use lists::Listed;
use std::alloc::Global;

/// What a file of version 1 begins with: `NBW1`.
pub(crate) const FIRST_MAGIC: [u8; 4] = [0x4e, 0x42, 0x57, 0x31];

/// What a file of version 2 begins with: `NBW2`.
pub(crate) const SECOND_MAGIC: [u8; 4] = [0x4e, 0x42, 0x57, 0x32];

/// The version of a file, its records, and the place of its closed gate.
#[derive(Drop)]
pub(crate) struct Records {
    pub(crate) version: u8,
    pub(crate) bodies: Bodies,
    pub(crate) gate: u64,
}

// The body behind an open gate, and what stands behind the body. A misfit's place counts from the gate.
#[tactic(auto, unfolding(byte_fields::specs::Fields::number))]
fn body_at(behind: &[u8]) -> Result<(&[u8], &[u8]), u64>
    ensures ok { IfOk result (λ found. HasFrame found.0.now × (behind.now ≡ sized found.0.now ++ found.1.now)) }
    ensures cut { IfErr result (λ n. IsCutBehind behind.now n) }
{
    let [a, b, c, d, rest @ ..] = behind else {
        return Err(1);
    };
    let size = u32::from_be_bytes([*a, *b, *c, *d]) as usize;
    if rest.len() < size {
        return Err(5);
    }
    Ok(rest.split_at(size))
}

// The version of a file, and what stands behind its magic.
fn version_of(file: &[u8]) -> Option<(u8, &[u8])>
    ensures found { IfSome result (λ found. IsVersion found.0 × (file.now ≡ magic found.0 ++ found.1.now)) }
    ensures none { result ≡ None → HasNoMagic file.now }
{
    if let Some(behind) = file.strip_prefix(&FIRST_MAGIC) {
        return Some((1, behind));
    }
    if let Some(behind) = file.strip_prefix(&SECOND_MAGIC) {
        return Some((2, behind));
    }
    None
}

/// The version of a file and its records. Refused where the bytes are outside the grammar, or for want of memory.
pub(crate) fn read_records(alloc: Global, file: &[u8]) -> Result<Records, OpenWhy>
    ensures ok { IfOk result (λ found. IsFile found.version found.bodies file.now × (found.gate ≡ length (front found.version found.bodies))) }
    ensures bad { IfErr result (IsBadFile file.now) }
{
    let Some((version, behind)) = version_of(file) else {
        return Err(OpenWhy::BadFile(0));
    };
    let mut bodies = Listed::new(alloc);
    let mut rest = behind;
    while let [OPEN_GATE, behind @ ..] = rest {
        let gate = (file.len() - rest.len()) as u64;
        let (body, next) = match body_at(behind) {
            Ok(found) => found,
            Err(n) => return Err(OpenWhy::BadFile(gate + n)),
        };
        bodies.push(Listed::from_slice(alloc, body)?)?;
        rest = next;
    }
    let gate = (file.len() - rest.len()) as u64;
    if rest.is_empty() {
        return Err(OpenWhy::BadFile(gate));
    }
    Ok(Records {
        version,
        bodies,
        gate,
    })
}
