//! Why a list of tokens has no tree.
ghost use Rattle.std.specs.Prelude.{◌≡◌};
ghost use Rattle.ratio_expressions.specs.declared.parser.error.ParseError.TheVariants.{Memory};

use std::alloc::{AllocError, AllocFailed};

/// Why a list of tokens has no tree.
#[derive(Clone, Copy, PartialEq, Debug)]
pub enum ParseError {
    /// The memory did not suffice.
    Memory,
    /// Counted from 0, the token where it stops: an expression begins with the tokens before this one, and none with this
    /// one too. Or the number of all tokens: they begin an expression, but its end is missing.
    RefusedToken(usize),
}

impl From<AllocError> for ParseError {
    ghost from_gives = { λ _ e. e ≡ Memory };

    fn from(_e: AllocError) -> ParseError {
        ParseError::Memory
    }
}
