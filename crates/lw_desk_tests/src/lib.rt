//! Tests of the desk by what its crates export: the plan of an arrangement, calls behind locks, tasks on threads, a desk that was
//! not closed, slots that are opened again, layers over the edges of the screen, parts of the screen, and 1,024
//! slots.
#![tactic(auto)]

#[cfg(test)]
mod calls;
#[cfg(test)]
mod tests_arrange;
#[cfg(test)]
mod tests_closing;
#[cfg(test)]
mod tests_overlap;
#[cfg(test)]
mod tests_part;
#[cfg(test)]
mod tests_tasks;
#[cfg(test)]
mod tests_versions;
