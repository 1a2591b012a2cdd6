//! Tests of the crates below a layer, by what these export: regions, bits, streams, demos, message classes, hooks and the order
//! word.
#![tactic(auto)]

#[cfg(test)]
mod shapes;
#[cfg(test)]
mod tests_backfill;
#[cfg(test)]
mod tests_cliprects;
#[cfg(test)]
mod tests_gen;
#[cfg(test)]
mod tests_io;
#[cfg(test)]
mod tests_kernels;
#[cfg(test)]
mod tests_order;
#[cfg(test)]
mod tests_planes;
#[cfg(test)]
mod tests_ports;
#[cfg(test)]
mod tests_region;
#[cfg(test)]
mod tests_strips;
