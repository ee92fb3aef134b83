//! The plans of a rack's disks, by name.
ghost use Rattle.std.specs.Prelude.{◌≡◌};
ghost use Rattle.disk_model.specs.Kept.{plan_for, without_plan};

use crate::mem_rack::Planned;
use crate::plan::Plan;
use crate::rack::DiskName;
use lists::Listed;
use std::alloc::Global;

/// Takes out the plan that was set first for this name; without one every call passes.
pub(crate) fn take_plan(alloc: Global, planned: &mut Vec<Planned>, name: DiskName) -> Plan
    ensures plan { result ≡ plan_for planned.old.items name }
    ensures taken { planned.new.items ≡ without_plan planned.old.items name }
{
    for at in 0..planned.len() {
        if planned[at].name.is_same(&name) {
            let Planned { name: _, plan } = planned.remove(at);
            return plan;
        }
    }
    Plan::new(None, Listed::new(alloc))
}
