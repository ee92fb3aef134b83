//! The clients.
ghost use Rattle.std.specs.Prelude.{◌≡◌, ◌+◌, ◌&&◌, ◌==◌, is_none};
ghost use Rattle.chain_world.specs.Events.{is_client, is_call};
ghost use Rattle.chain_run.specs.Shows.{client_in};

use graph_model::{CallId, Op};
use part_fold::Numbered;

/// A client: the number of its last call, and the call that is open.
#[derive(Drop)]
pub struct Caller {
    pub last: u64,
    pub asks: Option<(CallId, Op)>,
}

/// Whether there is such a client.
pub(crate) fn is_client(client: u32) -> bool
    ensures { result ≡ is_client client }
{
    0 < client && client <= 64
}

/// Whether a client has no open call, and the number is its last plus 1.
pub(crate) fn is_next(callers: &Numbered<Caller>, id: CallId) -> bool
    ensures { result ≡ (is_none (client_in callers.now id.client).asks && (id.number == (client_in callers.now id.client).last + 1)) }
{
    let Some(caller) = callers.get(id.client as u64) else {
        return id.number == 1;
    };
    if caller.asks.is_some() {
        return false;
    }
    let Some(next) = caller.last.checked_add(1) else {
        return false;
    };
    id.number == next
}

/// Whether the call is its client's open one.
pub(crate) fn is_open(callers: &Numbered<Caller>, id: CallId) -> bool
    ensures { result ≡ is_call id (client_in callers.now id.client).asks }
{
    let Some(caller) = callers.get(id.client as u64) else {
        return false;
    };
    let Some(call) = &caller.asks else {
        return false;
    };
    call.0.cmp(&id).is_eq()
}

/// The number of a client's last call.
pub(crate) fn last_of(callers: &Numbered<Caller>, client: u32) -> u64
    ensures { result ≡ (client_in callers.now client).last }
{
    match callers.get(client as u64) {
        Some(caller) => caller.last,
        None => 0,
    }
}
