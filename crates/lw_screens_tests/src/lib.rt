//! Tests of `lw_screens`: random acts beside a display that asks row by row, and a text as a whole.
#![tactic(auto)]

#[cfg(test)]
mod plain;
#[cfg(test)]
mod tests;
