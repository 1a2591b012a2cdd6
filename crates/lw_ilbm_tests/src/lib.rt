//! Tests of `lw_ilbm`: broken files beside a small reader that counts, and files as other programs write them.
#![tactic(auto)]

#[cfg(test)]
mod tests;
