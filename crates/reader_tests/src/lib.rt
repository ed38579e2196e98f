//! Tests of the readers, of the resolution and of what they stand on.
#![tactic(auto)]

#[cfg(test)]
mod advisory_reader_tests;
#[cfg(test)]
mod jam_base_tests;
#[cfg(test)]
mod json_value_tests;
#[cfg(test)]
mod lock_reader_tests;
#[cfg(test)]
mod node_resolve_tests;
#[cfg(test)]
mod npm_range_tests;
#[cfg(test)]
mod package_tests;
#[cfg(test)]
mod source_tests;
#[cfg(test)]
mod tables;
