//! The calls for C and for other languages, over slices of fractions, which `include/ratio.h` declares. Each answer has a code, and the
//! numbers that C gives have no condition. That the pointers are right is the caller's part. Most calls are in `numbers32`,
//! `numbers64` and `numbers128`.
//!
//! | Module | What is in it |
//! |---|---|
//! | `numbers32` | The structs of C with fractions of `i32`, and the exported calls over slices of them, such as `ratio_add_i32`. |
//! | `numbers64` | The structs of C with fractions of `i64`, and the exported calls over slices of them, such as `ratio_add_i64`. |
//! | `numbers128` | The structs of C with fractions of `i128`, and the exported calls over slices of them, such as `ratio_add_i128`. |
//! | `wide` | `Wide`: an `i128` as it crosses, in two halves. |
//! | `crossing` | The traits of inputs and answers, as they cross from a caller and back, the answers of checked calls and of refusals, and the numbers that a hash takes. |
//! | `code` | The codes of answers. |
//! | `each` | The trait `Call`, and `each`: one call for each item of a slice. |
//! | `compare` | The order of a pair, and whether it is equal, each as a number. |
//! | `hash` | The hash of a fraction, by its value, and the hash of one in lowest terms, which stirs its two numbers by two products. |
//! | `arithmetic` | The sum, difference, product, quotient and remainder of a pair of fractions, and whether both denominators are positive. |
//! | `divisors` | The greatest common divisor and the least common multiple of a pair of fractions. |
//! | `one_fraction` | Calls on one fraction: lowest terms, negative, absolute value, floor, ceiling, truncation, rounding to a whole number, powers, and the fraction in a type of another width; and whether its denominator is positive. |
//! | `near` | Fractions near others: the simplest one within two bounds, which flags describe, the nearest one with a bounded denominator, and the convergents of a fraction, each by its place. |
//! | `rounded` | Fractions, products and quotients rounded by a rule to a whole number or to a multiple of `1/parts`, and the rules by their numbers. |
//! | `many` | The call for C that multiplies many fractions and divides by many, where no number on the way has to fit. |
//! | `splits` | The calls for C that split an amount by shares or by weights, so that nothing is lost. |
//! | `printing` | Printing fractions as texts, one after another into one piece of memory. |
//! | `reading` | Reading fractions, each from a span of bytes: from texts such as `-2/4`, and from what a person types. |
//! | `decimal` | Printing fractions as decimals, and reading them from decimals. |
//! | `scaled` | Fractions from numbers with a decimal scale, as databases keep them: 25/2 from 1250 with the scale 2. |
//! | `floats` | Fractions with the values of floats, the simplest ones that round to floats, and the floats nearest to fractions. |
//! | `totals` | The struct `Total64`, the header of a total, and how items, or the slots of another total, go into its slots one after another, until one is stopped. |
//! | `total_changes` | The calls for C that change a total: fractions go in or out, and so do the slots of another total; and for one that grows, the length of its next table, and the slots that move there. |
//! | `total_reads` | The calls for C that read a total, and the room that these need: its empty slots, its sum, its mean, its sign, its decimal, and the multiple of `1/parts` near it. |
//! | `total_orders` | The calls for C that compare two totals, and the room that this needs. |
//! | `total_floats` | The call for C that reads a total as a float. |
//! | `total_bounded` | The call for C that prints a total from the bounds of its sum, in one pass. |
//! | `total_joining` | The struct `Joined64`, the header of a read in steps, and the call for C that joins some slots of a total at a time. |
//! | `joined_reads` | The calls for C that read a total from the room where all its slots are joined: its sum, its mean, its sign, its float and its decimal. |
//! | `laws` | The laws of hashes, of keys, of bytes for sorting and of totals. |
//! | `hash_mod61` | The hash of a fraction in Python: the residue modulo 2^61 - 1, with the sign of the fraction; and products and inverses modulo 2^61 - 1. |
//! | `sorting` | What sorts as the values do: 24 bytes, and keys of 64 bits from the nearest float, whose order never contradicts that of the values. |
//! | `strided` | Calls for C on pairs whose fractions lie apart in memory, such as the answers of another call. |
#![tactic(auto)]

pub mod arithmetic;
pub mod code;
pub mod compare;
pub mod crossing;
pub mod decimal;
pub mod divisors;
pub mod each;
pub mod floats;
pub mod hash;
pub mod hash_mod61;
pub mod joined_reads;
pub mod laws;
pub mod many;
pub mod near;
pub mod numbers128;
pub mod numbers32;
pub mod numbers64;
pub mod one_fraction;
pub mod printing;
pub mod reading;
pub mod rounded;
pub mod scaled;
pub mod sorting;
pub mod splits;
pub mod strided;
pub mod total_bounded;
pub mod total_changes;
pub mod total_floats;
pub mod total_joining;
pub mod total_orders;
pub mod total_reads;
pub mod totals;
pub mod wide;
