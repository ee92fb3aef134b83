//! How rows get into a view.
ghost use Rattle.std.specs.Prelude.{◌≡◌, [], ◌∷◌, ◌++◌, OnOk};
ghost use Rattle.std.specs.Option.{option_copied};
ghost use Rattle.graph_model.specs.Views.{row_alone};

use graph_model::{EdgeId, Found, Row, View};
use lists::NoMemory;
use std::alloc::Global;

/// Adds a copy of a row that was found. Refused for want of memory alone.
pub(crate) fn push_found(
    alloc: Global,
    view: &mut View,
    edge: Option<EdgeId>,
    inward: bool,
    row: &Row,
) -> Result<(), NoMemory>
    ensures { OnOk result (view.new ≡ view.old ++ record { edge = edge; inward = inward; row = row.now } ∷ []) }
{
    let row = row.copy(alloc)?;
    view.push(Found { edge, inward, row })
}

/// Adds a copy of a row, where there is one. Refused for want of memory alone.
pub(crate) fn push_alone(
    alloc: Global,
    view: &mut View,
    edge: Option<EdgeId>,
    row: Option<&Row>,
) -> Result<(), NoMemory>
    ensures { OnOk result (view.new ≡ view.old ++ row_alone edge (option_copied row.entry)) }
{
    let Some(row) = row else {
        return Ok(());
    };
    push_found(alloc, view, edge, false, row)?;
    Ok(())
}
