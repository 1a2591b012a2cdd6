//! Tests of `lw_area`: random polygons with patterns against a body that asks pixel by pixel.
#![tactic(auto)]

#[cfg(test)]
mod tests;
