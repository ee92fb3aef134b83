//! What lines are answered, by hand.
ghost use Rattle.line_answer.specs.Worked.{AnswersByHand};

/// Of each way in which a statement ends, the printed answer that the definitions give is what was written by hand.
pub fn answers_by_hand()
    ensures { AnswersByHand }
{}
