//! The rows of tags, by their keys.
ghost use Rattle.std.specs.Prelude.{◌≡◌, IfSome, IfNone, IsSome, None, true, not};
ghost use Rattle.std.specs.BTreeMap as tree;
ghost use Rattle.std.specs.FinMap as map;
ghost use Rattle.std.specs.Ordering.{eq_by_cmp};
ghost use Rattle.graph_model.specs.Keys.{vid_cmp, tag_cmp};
ghost use Rattle.graph_model.specs.declared.tag_key.TagKey.{TagKey};

use graph_model::{Row, TagKey, Vid};
use lists::NoMemory;
use std::alloc::Global;
use std::collections::BTreeMap;
use std::marker::Model;

/// The rows of a part's tags; contracts see a finite map.
#[derive(Drop)]
pub struct Tags {
    kept: BTreeMap<TagKey, Row>,
}

impl Model for Tags {
    ghost use Rattle.std.specs.FinMap as map;
    ghost use Rattle.std.specs.Coded.{coded_list};
    ghost use Rattle.std.specs.Prelude.{List};
    ghost use Rattle.graph_model.specs.Keys.{tag_cmp};
    ghost use Rattle.graph_model.specs.contracts.tag_key.TagKey as key;
    ghost use Rattle.graph_model.specs.declared.val.Val.{Val};
    ghost use Rattle.graph_model.specs.contracts.val.Val as val;

    ghost Value = { map.FinMap tag_cmp (List Val) };

    ghost coded = { map.code key.the_row.coded (coded_list val.the_row.coded) };

    ghost view = { λ a. map.from_entries a.kept.entries };
}

impl Tags {
    ghost use Rattle.std.specs.FinMap as map;
    ghost use Rattle.std.specs.Option.{option_copied, is_some};
    ghost use Rattle.std.specs.Ordering.{eq_by_cmp};
    ghost use Rattle.std.specs.Prelude.{◌≡◌, not, OnOk};
    ghost use Rattle.graph_model.specs.Keys.{vid_cmp};

    /// No tag has a row.
    pub fn new(alloc: Global) -> Tags
        ensures { result ≡ map.empty }
    {
        Tags {
            kept: BTreeMap::new(alloc),
        }
    }

    /// The row of a tag.
    pub fn get(&self, key: &TagKey) -> Option<&Row>
        ensures { option_copied result ≡ map.get self.now key.now }
    {
        self.kept.get(key)
    }

    /// Whether a tag has a row.
    pub fn has(&self, key: &TagKey) -> bool
        ensures { result ≡ is_some (map.get self.now key.now) }
    {
        self.kept.contains_key(key)
    }

    /// The tag has this row. Refused for want of memory alone.
    pub fn put(&mut self, key: TagKey, row: Row) -> Result<(), NoMemory>
        ensures { OnOk result (self.new ≡ map.insert self.old key row) }
    {
        self.kept.insert(key, row)?;
        Ok(())
    }

    /// Takes the tags of a vertex away.
    pub fn remove_of(&mut self, v: &Vid)
        ensures { self.new ≡ map.retain_keys self.old (λ key. not (eq_by_cmp vid_cmp v.now key.vid)) }
    {
        remove_tags(&mut self.kept, v);
    }
}

// The first tag of a vertex, if it has one.
fn first_tag(verts: &BTreeMap<TagKey, Row>, v: &Vid) -> Option<TagKey>
    ensures found { IfSome result (λ key. (eq_by_cmp vid_cmp v.now key.vid ≡ true) × IsSome (tree.get tag_cmp verts.now key)) }
    ensures none { IfNone result ((q : TagKey) → eq_by_cmp vid_cmp v.now q.vid ≡ true → tree.get tag_cmp verts.now q ≡ None) }
{
    let first = TagKey::of(v, &0);
    let Some((key, _)) = verts.range(first..).next() else {
        return None;
    };
    if !key.is_of(v) {
        return None;
    }
    Some(*key)
}

// Takes the tags of a vertex away, one after another.
fn remove_tags(verts: &mut BTreeMap<TagKey, Row>, v: &Vid)
    ensures { map.from_entries {R = tag_cmp} verts.new.entries ≡ map.retain_keys (map.from_entries verts.old.entries) (λ key. not (eq_by_cmp vid_cmp v.now key.vid)) }
{
    'tags: while let Some(key) = first_tag(verts, v) {
        verts.remove(&key);
    }
}
