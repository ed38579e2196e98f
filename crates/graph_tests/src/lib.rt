//! Tests of summaries, call graphs, paths and reports.
#![tactic(auto)]

#[cfg(test)]
mod alarm_tests;
#[cfg(test)]
mod composer_tests;
#[cfg(test)]
mod example_reports;
#[cfg(test)]
mod flow_fold_tests;
#[cfg(test)]
mod reach_path_tests;
#[cfg(test)]
mod reach_rows;
#[cfg(test)]
mod report_tests;
#[cfg(test)]
mod report_text_tests;
#[cfg(test)]
mod set_pool_tests;
