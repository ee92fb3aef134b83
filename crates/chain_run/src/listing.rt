//! Lists by part.
ghost use Rattle.std.specs.Prelude.{◌≡◌, ◌∷◌, [], ◌++◌, ◌==◌, ℕ, OnOk, if◌then◌else◌, slice_get};
ghost use Rattle.std.specs.Option.{option_copied};
ghost use Rattle.std.specs.FinMap.{remove};
ghost use Rattle.chain_run.specs.Shows.{list_in};

use lists::{Listed, NoMemory};
use part_fold::Numbered;
use std::alloc::Global;

/// The list of a part; the empty one where it has none.
pub(crate) fn list_of<X: Drop>(lists: &Numbered<Listed<X>>, part: u32) -> &[X]
    ensures { result.now ≡ list_in lists.now part }
{
    match lists.get(part as u64) {
        Some(list) => list.as_slice(),
        None => &[],
    }
}

/// The item of a number, the first one's 0.
pub(crate) fn item_at<X>(items: &[X], number: u64) -> Option<&X>
    ensures { option_copied result ≡ slice_get items.now number }
{
    let Some(item) = items.get(number as usize) else {
        return None;
    };
    Some(item)
}

// Takes the list of a part out.
fn taken_out<X: Drop>(alloc: Global, lists: &mut Numbered<Listed<X>>, part: u32) -> Listed<X>
    ensures list { result ≡ list_in lists.old part }
    ensures others { lists.new ≡ remove lists.old part }
{
    match lists.remove(part as u64) {
        Some(list) => list,
        None => Listed::new(alloc),
    }
}

/// Puts an item at the end of a part's list. Refused for want of memory alone.
pub(crate) fn push_to<X: Drop>(
    alloc: Global,
    lists: &mut Numbered<Listed<X>>,
    part: u32,
    item: X,
) -> Result<(), NoMemory>
    ensures { OnOk result (list_in lists.new ≡ (λ (q : ℕ). if q == part then list_in lists.old part ++ item ∷ [] else list_in lists.old q)) }
{
    let mut list = taken_out(alloc, lists, part);
    list.push(item)?;
    lists.put(part as u64, list)
}
