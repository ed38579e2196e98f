//! Tests of the top call.
#![tactic(auto)]

#[cfg(test)]
mod applications;
#[cfg(test)]
mod audit_tests;
#[cfg(test)]
mod bench;
#[cfg(test)]
mod jam_app_tests;
#[cfg(test)]
mod loading_tests;
#[cfg(test)]
mod refusal_tests;
#[cfg(test)]
mod rows;
