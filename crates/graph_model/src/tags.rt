//! The tags of one vertex among the tags of all.
ghost use Rattle.std.specs.Prelude.{◌≡◌, IfSome, IfNone, IsSome, None, true, not};
ghost use Rattle.std.specs.BTreeMap as tree;
ghost use Rattle.std.specs.FinMap as map;
ghost use Rattle.std.specs.Ordering.{eq_by_cmp};
ghost use Rattle.graph_model.specs.Keys.{vid_cmp, tag_cmp};
ghost use Rattle.graph_model.specs.declared.tag_key.TagKey.{TagKey};

use crate::tag_key::TagKey;
use crate::val::Row;
use crate::vid::Vid;
use std::collections::BTreeMap;

/// The first tag of a vertex, if it has one.
fn first_tag(verts: &BTreeMap<TagKey, Row>, v: &Vid) -> Option<TagKey>
    ensures found { IfSome result (λ key. (eq_by_cmp vid_cmp v.now key.vid ≡ true) × IsSome (tree.get tag_cmp verts.now key)) }
    ensures none { IfNone result ((q : TagKey) → eq_by_cmp vid_cmp v.now q.vid ≡ true → tree.get tag_cmp verts.now q ≡ None) }
{
    let first = TagKey::of(v, &0);
    let Some((key, _)) = verts.range(first..).next() else {
        return None;
    };
    if !key.is_of(v) {
        return None;
    }
    Some(*key)
}

/// Takes the tags of a vertex away, one after another.
pub(crate) fn remove_tags(verts: &mut BTreeMap<TagKey, Row>, v: &Vid)
    ensures { map.from_entries {R = tag_cmp} verts.new.entries ≡ map.retain_keys (map.from_entries verts.old.entries) (λ key. not (eq_by_cmp vid_cmp v.now key.vid)) }
{
    'tags: while let Some(key) = first_tag(verts, v) {
        verts.remove(&key);
    }
}
