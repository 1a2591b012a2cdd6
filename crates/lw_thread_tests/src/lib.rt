//! Tests of the program: tasks on threads that hold one another up, and the reports of many runs.
#![tactic(auto)]

#[cfg(test)]
mod tests_demo;
#[cfg(test)]
mod tests_realistic;
#[cfg(test)]
mod tests_spots;
#[cfg(test)]
mod tests_threads;
