//! What a leader sends when it applies an item.
ghost use Rattle.std.specs.Prelude.{◌≡◌, None};

use crate::letter::Letter;

/// What a leader sends when it applies an item: the answer to the client, the answer to the sender of a Remote or a Fence, and
/// what its rules send, in this order.
#[derive(Drop)]
pub struct ItemLetters {
    pub told: Option<Letter>,
    pub back: Option<Letter>,
    pub rule: Option<Letter>,
}

impl ItemLetters {
    /// Nothing.
    pub fn nothing() -> ItemLetters
        ensures told { result.told ≡ None }
        ensures back { result.back ≡ None }
        ensures rule { result.rule ≡ None }
    {
        ItemLetters {
            told: None,
            back: None,
            rule: None,
        }
    }

    /// What the rules send alone.
    pub fn of_rule(rule: Option<Letter>) -> ItemLetters
        ensures told { result.told ≡ None }
        ensures back { result.back ≡ None }
        ensures rule { result.rule ≡ rule }
    {
        ItemLetters {
            told: None,
            back: None,
            rule,
        }
    }
}
