//! Tests of the strips that change owner in arrangements, over whole histories of calls.
#![tactic(auto)]

#[cfg(test)]
mod tests_strips;
