//! Expressions such as `2 + 3 * 4`, of any size: from a text to a tree, its value, and the reply to the person who typed it.
//!
//! `line::value_of_line` returns the `Value` of a line, or by a `ValueError` why it has none, and `Names` keeps the names that lines give their values.
//! `replies::reply_to` makes a `Reply` of that, with the number in a `Form`: in `Mixed`, the line `x = 1 + 5/12` is answered `1 5/12`.
//!
//! The program `ratio` asks for a reply so, and writes the text with a line end:
//!
//! ```rattle
//! match reply_to(alloc, line, form, names)? {
//!     Reply::Nothing => Ok((blank_answer(alloc, setting)?, true)),
//!     Reply::Answer(text) => Ok((with_end(text)?, true)),
//!     Reply::Refused(text) => {
//!         let text = refusal(alloc, setting, line, text)?;
//!         Ok((with_end(text)?, false))
//!     }
//! }
//! ```
//!
//! | Module | What is in it |
//! |---|---|
//! | `token` | `Token`: a number, a name, an operator, a parenthesis or a comma, and its place in the text. |
//! | `lexer` | The tokens of a text, or the first place where none begins. |
//! | `lexer::number` | How long the number or the name is that a text begins with. |
//! | `lexer::symbol` | The operator, the parenthesis or the comma that a text begins with. |
//! | `vulgar` | The vulgar fraction that a text begins with, such as `½`. |
//! | `step` | `Step`: one step of a tree in postfix order, as a parser returns it. |
//! | `parser` | The tree of a list of tokens, or the first token that no expression has there. |
//! | `parser::error` | Why a list of tokens has no tree. |
//! | `parser::mark` | `Mark`: an operator or a parenthesis that waits for what is right of it. |
//! | `depth` | The first parenthesis that is too deep. |
//! | `expression` | The tree of a text, or its refusal, and the column of a place. |
//! | `refusal` | Why a text has no value, also in words for a person, and where. |
//! | `value` | `Value`: what an expression is worth. |
//! | `names` | `Names`: values by name. |
//! | `number` | The number that a piece of a text says. |
//! | `number::short_fraction` | The number that a text of one or two short whole numbers says: `3/4`, `12`. |
//! | `spelled` | A number with a slash in place of its vulgar fraction: `1 1/2` for `1½`. |
//! | `operation` | What an operator gives of two values, or why it refuses them. |
//! | `limit` | Whether numbers are not too large for an operator or a call to take them. |
//! | `size` | How many bits a number has, up to a limit. |
//! | `power` | The power of two numbers, if it is not too large to be worth it. |
//! | `function` | `Function`: a function that a call names, and how many numbers it takes. |
//! | `calls` | What a call such as `max(1, 2)` gives of its arguments, or why it refuses them. |
//! | `evaluation` | The value of the steps of a tree, over a stack of values. |
//! | `text_value` | The value of a text, or its first refusal. |
//! | `assignment` | The name that a line gives its value, and the expression of this value. |
//! | `line` | The value of a line, which gives it names: `x = 3/7`. |
//! | `slashes` | Which chains of slashes are taken whole, and how a text shows that. |
//! | `laws` | The laws that a text has at most one tree or is refused at one place, and not both, and that its slashes are read in one way, and where none of their chains is taken whole, from the left. |
//! | `value_laws` | The laws that a text is worth at most one value, that it has at most one refusal, and never both. |
//! | `replies` | What a line that a person types is answered: its value in a form, or why it has none, with a caret below the place. |
//! | `replies::form` | `Form`: as what a number is written. |
//! | `replies::written` | The text of a value in a form. |
//! | `replies::mixed` | A number as its whole part and the rest: `1 5/12`. |
//! | `replies::fields` | What a page shows of a number, with tabs between. |
//! | `replies::both` | A fraction with its decimal beside it: `7/12 ≈ 0.583333`. |
//! | `replies::float` | The float nearest to a number, as a decimal: `0.5833333333333334` for 7/12. |
//! | `replies::reading` | A value behind its line as that was read: `1/2 / (1/3) = 3/2`. |
//! | `replies::refused` | The text of a refusal: the line, a caret and the reason. |
//! | `replies::reply` | `Reply`: what a line is answered. |
//! | `replies::laws` | The laws that a line has one reply, and that a tiny number is written `0` as a float. |
//! | `replies::hint` | `Hint`: what a refused line is told to type. |
//! | `replies::slip` | Which hint a refused line gets: by what is before the refused place, and by what is at it. |
#![tactic(auto)]

mod assignment;
mod calls;
pub mod depth;
mod evaluation;
pub mod expression;
mod function;
pub mod laws;
pub mod lexer;
mod limit;
pub mod line;
pub mod names;
mod number;
mod operation;
pub mod parser;
mod power;
pub mod refusal;
pub mod replies;
mod size;
pub mod slashes;
mod spelled;
pub mod step;
pub mod text_value;
pub mod token;
pub mod value;
pub mod value_laws;
mod vulgar;
