//! The first parenthesis that is too deep.
ghost use Rattle.std.specs.Prelude.{◌<◌, ◌≤◌, ◌+◌, length, take, IfSome, IsNone};
ghost use Rattle.ratio_expressions.specs.Nesting.{depth, most_open};

use crate::token::{Kind, Token};

/// How many parentheses may be open at once, those of calls too.
pub const MOST_OPEN: usize = 1000;

/// The number of the first token with which more than `MOST_OPEN` parentheses are open, counted from 0.
pub fn first_too_deep(tokens: &[Token]) -> Option<usize>
    // It is one of the tokens.
    ensures within { IfSome result (λ at. at < length tokens.now) }
    // Before it, the parentheses are not too deep.
    ensures before { IfSome result (λ at. depth (take at tokens.now) ≤ most_open) }
    // With it they are.
    ensures deep { IfSome result (λ at. most_open < depth (take (at + 1) tokens.now)) }
    // If there is none, no parentheses are too deep.
    ensures shallow { IsNone result → depth tokens.now ≤ most_open }
{
    let mut open: usize = 0;
    for (at, token) in tokens.iter().enumerate() {
        match token.kind {
            Kind::Open => open += 1,
            Kind::Close => open = open.saturating_sub(1),
            Kind::Number | Kind::Name | Kind::Operator(_) | Kind::Comma => (),
        }
        if open > MOST_OPEN {
            return Some(at);
        }
    }
    None
}
