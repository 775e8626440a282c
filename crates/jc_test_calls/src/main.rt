//! Public calls on the bytes of files, one after the other: a program for tests, which scripts run with memory refused, and
//! whose output they compare with that of a reader of their own.
//!
//! The arguments are pairs of a word and an operand, as `calls.rt` has them.
#![tactic(auto)]

mod calls;
mod collecting;
mod deliveries;
mod entries;
mod journals;
mod kept;
mod operands;
mod output;
mod readings;
mod recorded;
mod schedules;
mod spaces;
mod stock;
mod values;
mod worlds;

use calls::Calls;
use std::io::Write;
use std::{env, io};

fn main(rt: HostRuntime) -> io::Result<()> {
    let words: Vec<String> = env::args(&rt)?.collect(rt.alloc())?;
    let mut calls = Calls::new(rt.alloc());
    let mut word: Option<&str> = None;
    for text in words.iter().skip(1) {
        match word {
            None => word = Some(text.as_str()),
            Some(name) => {
                calls.perform(&rt, name, text.as_str())?;
                word = None;
            }
        }
    }
    rt.stdout().write_all(&calls.into_output()?)
}
