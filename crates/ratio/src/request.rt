//! What the arguments ask for, or why they are refused.
ghost use Rattle.std.specs.Prelude.{◌≡◌, ◌⊎◌, ◌++◌, ◌∷◌, [], ℕ, true, false, List, None, map, string_bytes, MatchResult, OnOk};
ghost use Rattle.ratio.specs.Options.{is_option, option_named};
ghost use Rattle.ratio.specs.Requests.{EndsInDecimal, IsAskedBy, IsSoFar, RefusesArguments, RefusesNext};
ghost use Rattle.ratio.specs.declared.fault.Fault.TheVariants.{NoPlaces};
ghost use Rattle.ratio.specs.declared.request.Next.TheVariants as nexts;

use crate::fault::Fault;
use crate::option::{Asked, Page, is_option, number_behind, option_named, places};
use ratio_expressions::replies::Form;
use std::alloc::{AllocError, Global};

/// What the arguments ask for.
#[derive(Drop)]
pub enum Request {
    /// The text of `--help`.
    Help,
    /// The text of `--version`.
    Version,
    /// The value of this expression in this form.
    Expression(Vec<u8>, Form),
    /// The values of the lines of standard input, in this form or in the one that serves there, and with `--lines` or not.
    Lines(Option<Form>, bool),
}

// What the next argument is.
#[derive(Clone, Copy, PartialEq, Debug)]
enum Next {
    Any,
    Places,
    Text,
}

// What the arguments so far ask for.
#[derive(Drop)]
struct SoFar {
    next: Next,
    page: Option<Page>,
    form: Option<Form>,
    paired: bool,
    text: Option<Vec<u8>>,
}

/// What the arguments ask for. Options may stand anywhere before a `--`.
pub fn requested(alloc: Global, words: &[String]) -> Result<Request, Fault>
    ensures { MatchResult result (IsAskedBy (map string_bytes words.now)) (RefusesArguments (map string_bytes words.now)) }
{
    let mut so_far = SoFar {
        next: Next::Any,
        page: None,
        form: None,
        paired: false,
        text: None,
    };
    for word in words {
        so_far.take(alloc, word.as_str())?;
    }
    so_far.request()
}

impl SoFar {
    // Takes one more argument.
    fn take(&mut self, alloc: Global, word: &str) -> Result<(), Fault>
        ensures { (ws : List (List ℕ)) → IsSoFar ws self.old → MatchResult result (λ _. IsSoFar (ws ++ word.now ∷ []) self.new) (RefusesNext ws word.now) }
    {
        match self.next {
            Next::Places => self.take_places(word),
            Next::Any if is_option(word.as_bytes()) => self.take_option(alloc, word),
            Next::Any | Next::Text => {
                self.take_text(alloc, word)?;
                Ok(())
            }
        }
    }

    // Takes the number behind `--decimal`.
    fn take_places(&mut self, word: &str) -> Result<(), Fault>
        requires { self.old.next ≡ nexts.Places }
        ensures { (ws : List (List ℕ)) → IsSoFar ws self.old → MatchResult result (λ _. IsSoFar (ws ++ word.now ∷ []) self.new) (RefusesNext ws word.now) }
    {
        match places(word) {
            Some(n) => {
                self.form = Some(Form::Decimal(n));
                self.next = Next::Any;
                Ok(())
            }
            None => Err(Fault::NoPlaces),
        }
    }

    // Takes an option.
    fn take_option(&mut self, alloc: Global, word: &str) -> Result<(), Fault>
        requires any { self.old.next ≡ nexts.Any }
        requires option { is_option word.now ≡ true }
        ensures { (ws : List (List ℕ)) → IsSoFar ws self.old → MatchResult result (λ _. IsSoFar (ws ++ word.now ∷ []) self.new) (RefusesNext ws word.now) }
    {
        match option_named(word.as_bytes()) {
            None => self.take_unnamed(alloc, word),
            Some(Asked::Lines) => {
                self.paired = true;
                Ok(())
            }
            Some(Asked::Form(form)) => {
                self.form = Some(form);
                Ok(())
            }
            Some(Asked::Places) => {
                self.next = Next::Places;
                Ok(())
            }
            Some(Asked::End) => {
                self.next = Next::Text;
                Ok(())
            }
            Some(Asked::Page(page)) => {
                self.page = Some(page);
                Ok(())
            }
        }
    }

    // Takes an option without a name of its own, as `--decimal=4`.
    fn take_unnamed(&mut self, alloc: Global, word: &str) -> Result<(), Fault>
        requires any { self.old.next ≡ nexts.Any }
        requires option { is_option word.now ≡ true }
        requires unnamed { option_named word.now ≡ None }
        ensures { (ws : List (List ℕ)) → IsSoFar ws self.old → MatchResult result (λ _. IsSoFar (ws ++ word.now ∷ []) self.new) (RefusesNext ws word.now) }
    {
        let Some(number) = number_behind(word) else {
            return Err(Fault::UnknownOption(String::from_str(alloc, word)?));
        };
        match places(number) {
            Some(n) => {
                self.form = Some(Form::Decimal(n));
                Ok(())
            }
            None => Err(Fault::NoPlaces),
        }
    }

    // Takes a part of the expression.
    fn take_text(&mut self, alloc: Global, word: &str) -> Result<(), AllocError>
        requires { ((self.old.next ≡ nexts.Any) × (is_option word.now ≡ false)) ⊎ (self.old.next ≡ nexts.Text) }
        ensures { (ws : List (List ℕ)) → IsSoFar ws self.old → OnOk result (IsSoFar (ws ++ word.now ∷ []) self.new) }
    {
        match &mut self.text {
            Some(text) => {
                text.push(b' ')?;
                text.extend_from_slice(word.as_bytes())
            }
            None => {
                let text = Vec::from_slice(alloc, word.as_bytes())?;
                self.text = Some(text);
                Ok(())
            }
        }
    }

    // What all the arguments ask for.
    fn request(self) -> Result<Request, Fault>
        ensures { (ws : List (List ℕ)) → IsSoFar ws self → MatchResult result (IsAskedBy ws) (λ fault. (fault ≡ NoPlaces) × EndsInDecimal ws) }
    {
        let SoFar {
            next,
            page,
            form,
            paired,
            text,
        } = self;
        match page {
            Some(Page::Help) => return Ok(Request::Help),
            Some(Page::Version) => return Ok(Request::Version),
            None => (),
        }
        match next {
            Next::Places => return Err(Fault::NoPlaces),
            Next::Any | Next::Text => (),
        }
        match text {
            Some(text) => Ok(Request::Expression(text, form.unwrap_or(Form::Fraction))),
            None => Ok(Request::Lines(form, paired)),
        }
    }
}
