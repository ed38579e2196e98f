//! The top call of the tool: all that the program does, over a folder, a keeper and two sinks.
#![tactic(auto)]

mod answers;
mod audit;
mod commands;
mod law;
mod loading;
mod top;

pub use answers::refusal::Refusal;
pub use answers::status::Status;
pub(crate) use answers::stop::Stop;
pub use law::one_refusal;
pub use loading::size::BYTE_LIMIT;
pub use top::{ended_without_words, run};
pub use word_reader::{Command, Request, request_of};
