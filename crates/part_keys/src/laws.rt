//! What holds of keys, and parts worked by hand.
ghost use Rattle.part_keys.specs.KeyOrder.{KeysInOrder, OutKeysInOrder, InKeysInOrder, TagKeysInOrder};
ghost use Rattle.part_keys.specs.Worked.{IsOfA, IsAOfTen, IsAOfTwo, IsBOfTwo, IsNegative};

/// The order of keys as bytes is the order of their fields; within one part out-keys are ordered as edges, in-keys as
/// in-halves, and tag keys by vertex and tag.
pub fn order_of_keys()
    ensures fields { KeysInOrder }
    ensures out { OutKeysInOrder }
    ensures inn { InKeysInOrder }
    ensures tags { TagKeysInOrder }
{}

/// The part of some ids, as tests of the definition.
pub fn worked_parts()
    ensures hash { IsOfA }
    ensures of_ten { IsAOfTen }
    ensures of_two { IsAOfTwo }
    ensures other { IsBOfTwo }
    ensures negative { IsNegative }
{}
