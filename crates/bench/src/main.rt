//! Counts the records of a CSV file by the `csv` crate alone: `bench FILE`. `bench.py load` times it
//! beside `bw load` of the same file.
#![tactic(auto)]

use csv::{ByteRecord, ReaderBuilder};
use std::alloc::{AllocError, AllocFailed, Global};
use std::process::ExitCode;
use std::{env, fs, io};
use thiserror::Error;

/// Why the records weren't counted.
#[derive(Debug, Drop, Error)]
enum Failure {
    #[error("{0}")]
    Device(#[from] io::Error),
    #[error("{0}")]
    Memory(#[from] AllocError),
    #[error("the file isn't read as records")]
    Records,
    #[error("usage: bench FILE")]
    Usage,
}

impl<T: Drop> From<AllocFailed<T>> for Failure {
    fn from(error: AllocFailed<T>) -> Self {
        Failure::Memory(error.into())
    }
}

fn main(rt: HostRuntime) -> ExitCode {
    match print_count(&rt) {
        Ok(()) => ExitCode::SUCCESS,
        Err(failure) => {
            let _ = eprintln!(rt; "{failure}");
            ExitCode::FAILURE
        }
    }
}

/// Prints how many records the file has that the argument names.
fn print_count(rt: &HostRuntime) -> Result<(), Failure> {
    let words: Vec<String> = env::args(rt)?.collect(rt.alloc())?;
    let Some(path) = words.get(1) else {
        return Err(Failure::Usage);
    };
    let text = fs::read(rt, path.as_str())?;
    match records_in(rt.alloc(), &text) {
        Ok(count) => println!(rt; "{count}")?,
        Err(_) => return Err(Failure::Records),
    }
    Ok(())
}

/// Returns the number of records of a text.
fn records_in(alloc: Global, text: &[u8]) -> Result<u64, csv::Error> {
    let mut reader = ReaderBuilder::new()
        .has_headers(false)
        .flexible(true)
        .from_reader(alloc, text);
    let mut fields = ByteRecord::new(alloc);
    for count in 0..u64::MAX {
        if !reader.read_byte_record(&mut fields)? {
            return Ok(count);
        }
    }
    Ok(u64::MAX)
}
