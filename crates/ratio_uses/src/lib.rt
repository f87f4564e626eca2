//! Examples of callers: small programs over fractions, each with one theorem in its user's words, such as wheels whose ratio is near a
//! wanted one, a rent split by days, the beats of voices, and chains of rates. The functions that the pages show are here too.
//!
//! | Module | What is in it |
//! |---|---|
//! | `readme` | The functions that `docs/CALLING.md` shows first: the total of shares, a third of a text's fraction, and the faster rate. |
//! | `callers` | Callers of `Reduced`: the greatest amount, the mean of two, and places between, before and after others. |
//! | `conditions` | Callers of `Ratio`: the sum of two shares and the product of rates, with what these require. |
//! | `accounts` | Two accounts, and a part that moves from one to the other. |
//! | `shareholders` | A sale of a part of a share, over fractions of any size: nothing is rounded, and no share is lost. |
//! | `ledger` | A rent split among tenants by their days, over the library's `split` and `split_by_weights`, so that no cent is lost. |
//! | `ledger::cents` | An amount split by shares into multiples of a unit, such as cents, so that no cent is lost, and an amount rounded to cents. |
//! | `beats` | The voices of a polyrhythm: their beats in order of time, without drift, and the time when all meet. |
//! | `gears` | Two wheels whose ratio of teeth is near a wanted one. |
//! | `trains` | Two pairs of wheels, one after the other, whose ratio is near a wanted one. |
//! | `trains::products` | The products of the teeth of two wheels, next to a number, and the wheels of such a product. |
//! | `units` | Amounts converted by a chain of rates, and intervals brought into one octave by doublings and halvings. |
//! | `quotients` | Whole quotients and rests of numbers over one denominator, from one to the next, and of their sums, without a division. |
//! | `taxes` | A price without its tax, over fractions of any size. |
#![tactic(auto)]

pub mod accounts;
pub mod beats;
pub mod callers;
pub mod conditions;
pub mod gears;
pub mod ledger;
mod quotients;
pub mod readme;
pub mod shareholders;
pub mod taxes;
pub mod trains;
pub mod units;
