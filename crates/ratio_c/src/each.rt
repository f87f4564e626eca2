//! The trait `Call`, and `each`: one call for each item of a slice.
ghost use Rattle.ratio_c.specs.Calls.{AnswersEach};

/// A call that gives an answer for one item.
pub trait Call<A, B> {
    // The answers that are right for an item.
    ghost gives: { Self → A → B → Type 0 };

    /// The answer for one item.
    fn answer(&self, asked: &A) -> B
        ensures { gives self.now asked.now result };
}

/// A call returns this if it wrote its answers.
pub const DONE: u32 = 0;

/// A call returns this if it wrote nothing: the slices have unlike
/// lengths, or there is too little room for texts.
pub const BAD_LENGTH: u32 = 1;

/// Writes the answer for each item, if there are as many answers as items.
#[inline(always)]
pub fn each<C: Call<A, B>, A, B: Drop>(call: &C, asked: &[A], answers: &mut [B]) -> u32
    ensures { AnswersEach (C.gives call.now) asked.now answers.old answers.new result }
{
    if asked.len() != answers.len() {
        return BAD_LENGTH;
    }
    for i in 0..asked.len() {
        answers[i] = call.answer(&asked[i]);
    }
    DONE
}
