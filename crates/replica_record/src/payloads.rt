//! Which payloads may stand in the file of a replica.
use lists::NoMemory;
use part_keys::{EntryRefused, VidKind, is_payload, read_entry};
use replica_file::{FILE_VERSION, Payloads};
use replica_state::Whose;
use std::alloc::Global;
use std::marker::Model;

/// The entries of a part, as payloads.
#[derive(Drop)]
pub struct PartPayloads {
    part: u32,
    parts: u32,
    ids: VidKind,
}

impl Model for PartPayloads {
    ghost use Rattle.std.specs.Prelude.{◌<◌};
    ghost use Rattle.replica_state.specs.declared.whose.Whose.{Whose as Of};

    ghost Value = { Of };

    ghost view = { λ a. record { part = a.part; parts = a.parts; ids = a.ids } };

    ghost invariant = { λ a. 0 < a.parts };
}

impl PartPayloads {
    ghost use Rattle.std.specs.Prelude.{◌≡◌, ◌<◌};

    /// Those of this part.
    pub fn of(whose: Whose) -> PartPayloads
        requires { 0 < whose.parts }
        ensures { result ≡ whose }
    {
        PartPayloads {
            part: whose.part,
            parts: whose.parts,
            ids: whose.ids,
        }
    }
}

impl Payloads for PartPayloads {
    ghost use Rattle.replica_record.specs.Own.{allowed_in};
    ghost use Rattle.replica_state.specs.State.{home_in};

    ghost allowed = { λ whose. allowed_in (home_in whose) };

    fn allows(&self, alloc: Global, payload: &[u8]) -> Result<bool, NoMemory> {
        match read_entry(alloc, payload, FILE_VERSION) {
            Ok(entry) => Ok(is_payload(self.ids, self.parts, self.part, &entry)),
            Err(EntryRefused::BadPacket(_)) => Ok(false),
            Err(EntryRefused::NoMemory) => Err(NoMemory),
        }
    }
}
