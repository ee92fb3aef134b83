//! What an entry does, made ahead.
ghost use Rattle.std.specs.Prelude.{◌≡◌, ℕ, IfOk};
ghost use Rattle.part_rules.specs.Part.{Part};
ghost use Rattle.part_store.specs.Settings.{IsSetting};
ghost use Rattle.part_machine.specs.Chains.{standing};
ghost use Rattle.part_machine.specs.Plans.{IsState, IsNext, IsPlan, AreOwn};
ghost use Rattle.part_machine.specs.Taken.{IsTaken};

use crate::calls::still;
use crate::chains::Places;
use crate::ending::{plan_abort, plan_close, plan_double, plan_local};
use crate::plan::Plan;
use crate::priming::plan_prime;
use crate::remoting::{plan_fence, plan_remote};
use crate::vertices::plan_vertex;
use kv_part::KeyStore;
use lists::NoMemory;
use part_keys::PartEntry;
use part_rules::Applied;
use part_store::Setting;
use std::alloc::Global;

/// What the entry does at this index, by the table. Refused for want of memory alone.
pub(crate) fn plan_entry<S: KeyStore>(
    alloc: Global,
    s: Setting,
    store: &S,
    places: &Places,
    index: u64,
    entry: &PartEntry,
) -> Result<Plan, NoMemory>
    requires setting { IsSetting s }
    requires own { AreOwn s (standing places.now.entries) }
    requires taken { IsTaken s entry.now }
    ensures { (p : Part) (next : ℕ) → IsNext next index → IsState s next p (S.meaning store.now) (standing places.now.entries)
        → IfOk result (IsPlan s index entry.now p (S.meaning store.now) (standing places.now.entries)) }
{
    match entry {
        PartEntry::Prime(id, list, absent) => {
            plan_prime(alloc, s, store, index, *id, list, *absent)
        }
        PartEntry::Local(v) => plan_local(alloc, s, store, places, *v),
        PartEntry::Double(v) => plan_double(alloc, s, store, places, *v),
        PartEntry::Close(v) => plan_close(alloc, s, store, places, *v),
        PartEntry::Abort(v) => plan_abort(alloc, s, store, places, *v),
        PartEntry::Remote(source, term, v, list) => {
            plan_remote(alloc, s, store, *source, *term, *v, list)
        }
        PartEntry::Fence(source, term, v, edges) => {
            plan_fence(alloc, s, store, *source, *term, *v, edges.as_slice())
        }
        PartEntry::Vertex(id, op) => plan_vertex(alloc, s, store, *id, op),
        PartEntry::Read(..) => Ok(still(alloc, Applied::Nothing)),
    }
}
