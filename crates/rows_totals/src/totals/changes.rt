//! Steps of a total: `+1/2` adds, `-1/2` takes out, `+1/2x2/3` adds a product. A step behind `!` must be refused.

/// A step, whose fractions are still words.
#[derive(Clone, Copy)]
pub struct Step<'a> {
    pub refused: bool,
    pub adds: bool,
    pub fraction: &'a str,
    pub factor: Option<&'a str>,
}

impl Step<'_> {
    /// `None` if the step was refused and does not say so, or says so and was not refused.
    pub fn agrees(self, refused: bool) -> Option<()> {
        if self.refused == refused {
            Some(())
        } else {
            None
        }
    }
}

/// The step that a word writes.
pub fn read_step(word: &str) -> Option<Step<'_>> {
    let (refused, word) = match word.strip_prefix('!') {
        Some(word) => (true, word),
        None => (false, word),
    };
    let (adds, word) = match word.strip_prefix('+') {
        Some(word) => (true, word),
        None => (false, word.strip_prefix('-')?),
    };
    let (fraction, factor) = match word.split_once('x') {
        Some((fraction, factor)) => (fraction, Some(factor)),
        None => (word, None),
    };
    Some(Step {
        refused,
        adds,
        fraction,
        factor,
    })
}
