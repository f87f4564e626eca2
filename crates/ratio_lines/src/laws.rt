//! The laws of answers: inputs one after another, and that each input has answers. Each function does
//! nothing: its contract is the law.
ghost use Rattle.ratio_lines.specs.SideBySide.{AnswersJoin, AnswersPart, EachIsAnswered};

/// An input may be cut after any line end and answered in parts, on as many machines as there are. The
/// answers to the parts, joined in order, are the answers to the whole.
pub fn side_by_side()
    ensures join { AnswersJoin }
    ensures part { AnswersPart }
{}

/// Each input has one list of answers.
pub fn answers()
    ensures one { EachIsAnswered }
{}
