//! What is printed by hand.
ghost use Rattle.line_print.specs.Worked.{PrintedByHand};

/// The definition of what is printed gives these bytes, which were written by hand.
pub fn printed_by_hand()
    ensures { PrintedByHand }
{}
