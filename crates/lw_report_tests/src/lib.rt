//! Tests of the program: scripts of one task and their reports.
#![tactic(auto)]

#[cfg(test)]
mod tests_areas;
#[cfg(test)]
mod tests_blocks;
#[cfg(test)]
mod tests_drawing;
#[cfg(test)]
mod tests_gzz;
#[cfg(test)]
mod tests_hooks;
#[cfg(test)]
mod tests_layers;
#[cfg(test)]
mod tests_updates;
#[cfg(test)]
mod tests_windows;
