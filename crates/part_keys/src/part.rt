//! Which part an id belongs to.
ghost use Rattle.std.specs.Prelude.{◌≡◌, ◌≤◌, ◌<◌};
ghost use Rattle.part_keys.specs.Routing.{hash_of, id_number, part_of as number_of_part};

use graph_model::Vid;

/// What the hash of a text begins with (FNV-1a of 64 bits).
const FNV_BASIS: u64 = 14695981039346656037;

/// What the hash of a text is multiplied by at each byte.
const FNV_PRIME: u64 = 1099511628211;

// The hash of a text (FNV-1a of 64 bits): each byte is combined by exclusive or, then it is multiplied.
fn hash_of_text(text: &[u8]) -> u64
    ensures { result ≡ hash_of text.now }
{
    let mut hash = FNV_BASIS;
    for byte in text {
        hash = (hash ^ (*byte as u64)).wrapping_mul(FNV_PRIME);
    }
    hash
}

// A number as an unsigned one of 64 bits, and the hash of a text.
fn number_of(v: &Vid) -> u64
    ensures { result ≡ id_number v.now }
{
    match v {
        Vid::Num(number) => number.cast_unsigned(),
        Vid::Name(name) => hash_of_text(name.as_slice()),
    }
}

/// The part of an id that is lent: that number modulo the number of parts, plus 1.
pub(crate) fn part_number(v: &Vid, parts: u32) -> u32
    requires { 0 < parts }
    ensures number { result ≡ number_of_part parts v.now }
    ensures within { (0 < result) × (result ≤ parts) }
{
    (number_of(v) % parts as u64) as u32 + 1
}

/// The part of an id: that number modulo the number of parts, plus 1.
pub fn part_of(v: Vid, parts: u32) -> u32
    requires { 0 < parts }
    ensures number { result ≡ number_of_part parts v }
    ensures within { (0 < result) × (result ≤ parts) }
{
    part_number(&v, parts)
}
