//! A program for the benchmark: the jobs that a user of this library waits for, on made inputs. It prints a digest of all results.
//!
//! | Module | What is in it |
//! |---|---|
//! | `ledger` | A ledger is added up and read: columns of cents, of shares of them, of days, and of fractions of any kind. |
//! | `ordering` | Fractions are sorted, searched and grouped. |
//! | `amounts` | Amounts are split, converted, read and printed, and voices play in exact beats. |
//! | `wheels` | A workshop looks for wheels: two and four of them for a wanted ratio, and simple fractions near it. |
//! | `lines` | A file of lines is answered. |
//! | `wide` | Numbers of 128 bits, as chains of rates make them. |
//! | `made` | Made inputs: numbers and fractions from a seed, the same at each run. |
//! | `digest` | A digest of many results: one number that nearly any other result would change. |
#![tactic(auto)]

mod amounts;
mod digest;
mod ledger;
mod lines;
mod made;
mod ordering;
mod wheels;
mod wide;

use crate::digest::Digest;
use crate::made::Made;
use anyhow::{Result, bail};
use std::alloc::{AllocError, Global};
use std::env;

/// The words are the name of a job, the seed of its input, and how often it is done.
fn main(rt: HostRuntime) -> Result<()> {
    let mut words = env::args(&rt)?;
    let _program = words.next();
    let (Some(job), Some(seed), Some(count)) = (words.next(), words.next(), words.next()) else {
        bail!("the words are JOB SEED COUNT");
    };
    let seed = seed.parse::<u64>()?;
    let count = count.parse::<u32>()?;
    let Some(digest) = digest_of(rt.alloc(), job.as_str(), seed, count)? else {
        bail!("there is no such job");
    };
    println!(rt; "{job} {digest:016x}")?;
    Ok(())
}

// The digest of the job, or `None` if there is none of this name.
fn digest_of(alloc: Global, job: &str, seed: u64, count: u32) -> Result<Option<u64>, AllocError> {
    let mut made = Made::new(seed);
    Ok(match job {
        "wheels" => Some(wheels::run(&mut made, count)),
        "ledger" => Some(ledger::run(alloc, &mut made, count, 20_000)?),
        "amounts" => Some(amounts::run(alloc, &mut made, count)?),
        "ordering" => Some(ordering::run(alloc, &mut made, count, 20_000)?),
        "lines" => Some(lines::run(alloc, &mut made, count, 20_000)?),
        "wide" => Some(wide::run(alloc, &mut made, count)?),
        "sample" => Some(sample(alloc, &mut made)?),
        _ => None,
    })
}

// The digest of a little of each job but the wheels.
fn sample(alloc: Global, made: &mut Made) -> Result<u64, AllocError> {
    let mut digest = Digest::new();
    digest.add(ledger::run(alloc, made, 1, 200)?);
    digest.add(amounts::run(alloc, made, 1)?);
    digest.add(ordering::run(alloc, made, 1, 200)?);
    digest.add(lines::run(alloc, made, 1, 200)?);
    digest.add(wide::run(alloc, made, 1)?);
    Ok(digest.value())
}
