//! What a part keeps at one key. These reads take no memory.
ghost use Rattle.std.specs.Prelude.{◌≡◌, IfSome};
ghost use Rattle.graph_bytes.specs.Fits.{IsSmall};
ghost use Rattle.part_keys.specs.declared.key.Key.TheVariants as keys;
ghost use Rattle.part_keys.specs.Keys.{FitsKey};
ghost use Rattle.part_store.specs.Reads.{tag_is_in, out_is_in, number_in_store, chain_in_store, guard_in_store, last_in_store};
ghost use Rattle.part_store.specs.Settings.{IsSetting, IsVertexOf, IsFrom, IsInto};

use crate::keys::{client_key, double_key, guard_key, prime_key};
use crate::setting::Setting;
use crate::values::{chain_in, front_number, last_in};
use graph_model::{CallId, EdgeId, Vid};
use kv_part::KeyStore;
use part_keys::{in_key, out_key, tag_key};
use part_rules::Kept;

/// Whether the tag of the vertex has a row.
pub fn has_tag<S: KeyStore>(s: Setting, store: &S, v: &Vid, tag: u32) -> bool
    requires setting { IsSetting s }
    requires vertex { IsVertexOf s v.now }
    ensures is { result ≡ tag_is_in s (S.meaning store.now) v.now tag }
    ensures fits { FitsKey s.ids (keys.Tag s.part v.now tag) }
{
    let key = tag_key(s.ids, s.parts, *v, tag);
    store.get(key.as_slice()).is_some()
}

/// Whether the out-half of the edge is here.
pub fn has_out<S: KeyStore>(s: Setting, store: &S, e: &EdgeId) -> bool
    requires setting { IsSetting s }
    requires from { IsFrom s e.now }
    ensures is { result ≡ out_is_in s (S.meaning store.now) e.now }
    ensures fits { FitsKey s.ids (keys.OutEdge s.part e.now) }
{
    let key = out_key(s.ids, s.parts, e);
    store.get(key.as_slice()).is_some()
}

/// The kept number of the edge: that of the chain that wrote its in-half, 0 where none did.
pub fn number_at<S: KeyStore>(s: Setting, store: &S, e: &EdgeId) -> u64
    requires setting { IsSetting s }
    requires into { IsInto s e.now }
    ensures is { result ≡ number_in_store s (S.meaning store.now) e.now }
    ensures fits { FitsKey s.ids (keys.InEdge s.part e.now) }
{
    let key = in_key(s.ids, s.parts, e);
    match store.get(key.as_slice()) {
        Some(value) => front_number(value),
        None => 0,
    }
}

/// The number and the call of the chain that stands on the edge.
pub fn chain_at<S: KeyStore>(s: Setting, store: &S, e: &EdgeId) -> Option<(u64, CallId)>
    requires setting { IsSetting s }
    requires from { IsFrom s e.now }
    ensures is { result ≡ chain_in_store s (S.meaning store.now) e.now }
    ensures fits { FitsKey s.ids (keys.OutEdge s.part e.now) }
    ensures small { IfSome result (λ x. IsSmall x.1.client) }
{
    let single = prime_key(s.ids, s.parts, e);
    if let Some(value) = store.get(single.as_slice()) {
        return chain_in(value);
    }
    let double = double_key(s.ids, s.parts, e);
    match store.get(double.as_slice()) {
        Some(value) => chain_in(value),
        None => None,
    }
}

/// The guard for a source part: the newest term of a leader there, 0 where there was none.
pub fn guard_at<S: KeyStore>(s: Setting, store: &S, source: u32) -> u64
    requires setting { IsSetting s }
    requires source { IsSmall source }
    ensures is { result ≡ guard_in_store s (S.meaning store.now) source }
    ensures fits { FitsKey s.ids (keys.Guard s.part source) }
{
    let key = guard_key(s.part, source);
    match store.get(key.as_slice()) {
        Some(value) => front_number(value),
        None => 0,
    }
}

/// The client's last call, and its outcome so far.
pub fn last_at<S: KeyStore>(s: Setting, store: &S, client: u32) -> Option<Kept>
    requires setting { IsSetting s }
    requires client { IsSmall client }
    ensures is { result ≡ last_in_store s (S.meaning store.now) client }
    ensures fits { FitsKey s.ids (keys.Client s.part client) }
{
    let key = client_key(s.part, client);
    match store.get(key.as_slice()) {
        Some(value) => last_in(value),
        None => None,
    }
}
