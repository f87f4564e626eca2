//! The laws that a line has one reply, and that a tiny number is written `0` as a float.
ghost use Rattle.std.specs.Prelude.{◌≡◌, ℕ, List, Option};
ghost use Rattle.ratio_expressions.specs.Bound.{named};
ghost use Rattle.ratio_expressions.specs.Worths.{Worth};
ghost use Rattle.ratio_expressions.specs.declared.names.Names.{Names};
ghost use Rattle.ratio_expressions.specs.Floats.{TinyFloatsAreZero};
ghost use Rattle.ratio_expressions.specs.Replies.{AreAlike, IsReply};
ghost use Rattle.ratio_expressions.specs.declared.replies.form.Form.{Form};
ghost use Rattle.ratio_expressions.specs.declared.replies.reply.Reply.{Reply};

/// A line has one reply in each form, to the byte, and behind it each name is worth one value.
pub fn one_reply()
    ensures reply { (line : List ℕ) (form : Form) (names : Names) (behind after : List ℕ → Option Worth) (r q : Reply)
        → IsReply line form (named names) behind r → IsReply line form (named names) after q → AreAlike r q }
    ensures names { (line : List ℕ) (form : Form) (names : Names) (behind after : List ℕ → Option Worth) (r q : Reply)
        → IsReply line form (named names) behind r → IsReply line form (named names) after q → (other : List ℕ) → behind other ≡ after other }
{}

/// A fraction of at most 2^-1075, without its sign, is written `0` in `Float`, even if it is below 0.
pub fn tiny_floats()
    ensures { TinyFloatsAreZero }
{}
