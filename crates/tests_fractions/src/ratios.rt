//! The fraction types of `num_rational`.
mod carried;
mod codes;
mod every_call;
mod folds;
mod forms;
mod json;
mod keys;
mod main_statement;
mod operators;
mod powers;
mod reduced;
mod rounding;
mod signs;
mod succeeding;
mod texts;
