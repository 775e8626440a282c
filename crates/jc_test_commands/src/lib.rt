//! Commands over devices that fail, runs that are stopped, and journals in databases in memory.
#![tactic(auto)]

#[cfg(test)]
mod tests;
