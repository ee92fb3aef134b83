//! The tags of a vertex.
ghost use Rattle.std.specs.Prelude.{◌≡◌, IfOk};
ghost use Rattle.std.specs.List.{filter_map};
ghost use Rattle.part_store.specs.Reads.{tag_prefix, tag_behind, tags_in_store};
ghost use Rattle.part_store.specs.Settings.{IsSetting, IsVertexOf};

use crate::setting::Setting;
use byte_fields::read_u32;
use graph_model::Vid;
use kv_part::KeyStore;
use lists::{Bytes, Listed, NoMemory};
use part_keys::{KeyBytes, tag_key};
use std::alloc::Global;

// How the keys of the vertex's tags begin.
fn tag_prefix(s: Setting, v: &Vid) -> KeyBytes
    requires setting { IsSetting s }
    requires vertex { IsVertexOf s v.now }
    ensures { result ≡ tag_prefix s v.now }
{
    let key = tag_key(s.ids, s.parts, *v, 0);
    let bytes = key.as_slice();
    let mut made = KeyBytes::new();
    made.put_run(&bytes[..bytes.len() - 4]);
    made
}

// The tag of a key behind so many bytes.
#[tactic(auto, unfolding(byte_fields::specs::Reading::number_at))]
fn tag_behind(front: usize, pair: &(Bytes, Bytes)) -> Option<u32>
    ensures { result ≡ tag_behind front pair.now }
{
    let bytes = pair.0.as_slice();
    if bytes.len() < front {
        return None;
    }
    match read_u32(&bytes[front..]) {
        Ok((tag, _)) => Some(tag),
        Err(_) => None,
    }
}

// The tags of the keys of these pairs.
fn tags_of(alloc: Global, front: usize, pairs: &[(Bytes, Bytes)]) -> Result<Listed<u32>, NoMemory>
    ensures { IfOk result (λ tags. tags ≡ filter_map (tag_behind front) pairs.now) }
{
    let mut tags = Listed::new(alloc);
    for pair in pairs {
        if let Some(tag) = tag_behind(front, pair) {
            tags.push(tag)?;
        }
    }
    Ok(tags)
}

/// The tags of the vertex that have a row. Refused for want of memory alone.
pub fn tags_at<S: KeyStore>(
    alloc: Global,
    s: Setting,
    store: &S,
    v: &Vid,
) -> Result<Listed<u32>, NoMemory>
    requires setting { IsSetting s }
    requires vertex { IsVertexOf s v.now }
    ensures { IfOk result (λ tags. tags ≡ tags_in_store s (S.meaning store.now) v.now) }
{
    let prefix = tag_prefix(s, v);
    let pairs = store.scan_prefix(alloc, prefix.as_slice())?;
    tags_of(alloc, prefix.as_slice().len(), pairs.as_slice())
}
