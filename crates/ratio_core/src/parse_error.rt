//! Why a text is refused as a fraction: `ParseRatioError`, its kinds, and what it prints.
ghost use Rattle.std.specs.Prelude.{◌≡◌, Some};
ghost use Rattle.std.specs.Fmt.{padded};
ghost use Rattle.ratio_core.specs.Refusal.{refusal_text};

use std::error::Error;
use std::fmt;
use std::marker::Model;

/// What is wrong with a text.
#[derive(Clone, Copy, PartialEq, Debug)]
pub enum RatioErrorKind {
    /// The text is not a fraction of numbers that fit the type, or its lowest
    /// terms do not fit. Over `i8`: `x`, `128` and `1/-128`.
    ParseError = 1,
    /// The text is a fraction of numbers that fit the type, and its denominator is 0: `1/0`.
    ZeroDenominator = 2,
}

/// The refusal of a text. Contracts see its kind.
#[derive(Clone, Copy, PartialEq, Debug)]
pub struct ParseRatioError {
    kind: RatioErrorKind,
}

impl Model for ParseRatioError {
    ghost use Rattle.ratio_core.specs.declared.parse_error.RatioErrorKind.{RatioErrorKind};

    ghost Value = { RatioErrorKind };

    ghost view = { λ e. e.kind };

    ghost inverse = { λ k. record { kind = k } };
}

impl ParseRatioError {
    /// A refusal of this kind.
    pub fn new(kind: RatioErrorKind) -> ParseRatioError
        ensures { result ≡ kind }
    {
        ParseRatioError { kind }
    }

    /// What is wrong with the text.
    pub fn kind(&self) -> RatioErrorKind
        ensures { result ≡ self.now }
    {
        self.kind
    }
}

impl fmt::Display for ParseRatioError {
    ghost output = { λ e. Some (refusal_text e) };

    ghost styled_output = { λ e options. Some (padded options (refusal_text e)) };

    fn fmt<W: fmt::Write>(&self, f: &mut fmt::Formatter<W>) -> fmt::Result {
        match self.kind {
            RatioErrorKind::ParseError => f.pad("failed to parse integer"),
            RatioErrorKind::ZeroDenominator => f.pad("zero value denominator"),
        }
    }
}

impl Error for ParseRatioError {}
