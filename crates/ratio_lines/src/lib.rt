//! The line calculator as a library, which answers each line of an input, such as `1/2 + 1/3`, with a line of an output. For every reader
//! and writer, a run reads all input and writes exactly its answers, or it stops at the first fault.
//!
//! | Module | What is in it |
//! |---|---|
//! | `calculator` | The calculator, from the bytes read to the bytes written: `run` and its steps, each for one piece of the input. |
//! | `fault` | Why a run stopped, and what the program prints then. |
//! | `gathered` | `Gathered`: bytes that wait to be written, and the answers to a piece of the input put there, so that one call writes many of them. |
//! | `line` | `Line`: the line that is being read, as far as it is kept, and the answer to the line that ends first in a piece of the input. |
//! | `answer` | The answer to one line: its operands are read, its operators are applied, or it is refused. |
//! | `operand` | The operand that a text begins with, in lowest terms, which is read while its end is looked for. |
//! | `operator` | The enum `Operator`: the operators of the calculator, by their names, and what each gives between two fractions. |
//! | `parts` | The limit of a line, and how a line is cut: from the bytes after it, into its parts, and a plain line in one pass. |
//! | `counted` | `Counted`: readers and writers whose calls a contract can follow, `Calls` for what these calls did, `Moments` for what had moved before each read, and the traits `CalcRead` and `CalcWrite`. |
//! | `laws` | The laws of answers: inputs one after another, and that each input has answers. |
#![tactic(auto)]

pub mod answer;
pub mod calculator;
pub mod counted;
pub mod fault;
pub mod gathered;
pub mod laws;
pub mod line;
pub mod operand;
pub mod operator;
pub mod parts;
