//! Who a replica is.
use part_keys::VidKind;
use part_store::Setting;
use replica_state::Whose;

/// Who a replica is: of which part of how many, which peer of it, on which node, and of which kind the space's ids are. Each
/// call that takes it has the condition that parts is 1 to 64, part 1 to parts, peer at least 1, and a text id of 1 to 32 bytes.
#[derive(Clone, Copy)]
pub struct Who {
    pub part: u32,
    pub peer: u32,
    pub node: u32,
    pub parts: u32,
    pub ids: VidKind,
}

impl Who {
    ghost use Rattle.std.specs.Prelude.{◌≡◌};
    ghost use Rattle.replica_peer.specs.Peer.{whose_in};
    ghost use Rattle.replica_core.specs.Who.{setting_of};

    // Its part of the space.
    pub(crate) fn setting(self) -> Setting
        ensures { result ≡ setting_of self }
    {
        Setting {
            ids: self.ids,
            parts: self.parts,
            part: self.part,
        }
    }

    // Whose replica it is.
    pub(crate) fn whose(self) -> Whose
        ensures { result ≡ whose_in (setting_of self) }
    {
        Whose {
            part: self.part,
            parts: self.parts,
            ids: self.ids,
        }
    }
}
