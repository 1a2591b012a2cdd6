//! Tests of the reader of scripts, orders and reports, which call what `lw_script` and `lw_report_order` export.
#![tactic(auto)]

#[cfg(test)]
mod tests_areas;
#[cfg(test)]
mod tests_counts;
#[cfg(test)]
mod tests_gzz;
#[cfg(test)]
mod tests_order;
#[cfg(test)]
mod tests_refused;
#[cfg(test)]
mod tests_script;
