//! Tests of the program by what `lw_top` exports: its commands and streams, refusals, orders, shows and pictures.
#![tactic(auto)]

#[cfg(test)]
mod expected;
#[cfg(test)]
mod tests_audit;
#[cfg(test)]
mod tests_commands;
#[cfg(test)]
mod tests_cut;
#[cfg(test)]
mod tests_display;
#[cfg(test)]
mod tests_first;
#[cfg(test)]
mod tests_pictures;
#[cfg(test)]
mod tests_refusals;
#[cfg(test)]
mod tests_told;
#[cfg(test)]
mod tests_versions;
