//! The tags of one vertex among the tags of all.
ghost use Rattle.std.specs.Prelude.{◌≡◌, IfSome, IfNone, IsSome, None, true, not};
ghost use Rattle.std.specs.BTreeMap as tree;
ghost use Rattle.std.specs.FinMap as map;
ghost use Rattle.std.specs.Ordering.{int_eq};
ghost use Rattle.first_graph.specs.Keys.{tag_cmp};
ghost use Rattle.first_graph.specs.declared.tag_key.TagKey.{TagKey};

use crate::edge_id::Vid;
use crate::tag_key::TagKey;
use crate::val::Row;
use std::collections::BTreeMap;

/// The first tag of a vertex, if it has one.
fn first_tag(verts: &BTreeMap<TagKey, Row>, v: &Vid) -> Option<TagKey>
    ensures found { IfSome result (λ key. (int_eq key.vid v.now ≡ true) × IsSome (tree.get tag_cmp verts.now key)) }
    ensures none { IfNone result ((q : TagKey) → int_eq q.vid v.now ≡ true → tree.get tag_cmp verts.now q ≡ None) }
{
    let first = TagKey::of(v, &0);
    let Some((key, _)) = verts.range(first..).next() else {
        return None;
    };
    if !is_tag_of(key, v) {
        return None;
    }
    Some(*key)
}

fn is_tag_of(key: &TagKey, v: &Vid) -> bool
    ensures { result ≡ int_eq key.now.vid v.now }
{
    key.vid == *v
}

/// Takes the tags of a vertex away, one after another.
pub(crate) fn remove_tags(verts: &mut BTreeMap<TagKey, Row>, v: &Vid)
    ensures { map.from_entries {R = tag_cmp} verts.new.entries ≡ map.retain_keys (map.from_entries verts.old.entries) (λ key. not (int_eq key.vid v.now)) }
{
    'tags: while let Some(key) = first_tag(verts, v) {
        verts.remove(&key);
    }
}
