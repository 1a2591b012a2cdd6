//! Tests of `lw_display`: shows that are read, and the lines at which others are refused.
#![tactic(auto)]

#[cfg(test)]
mod tests;
