//! What a run answers: its status, the text that is owed, and the line for the error output.
pub(crate) mod edges;
pub(crate) mod file_message;
pub(crate) mod line;
pub(crate) mod message;
pub(crate) mod printed;
pub(crate) mod refusal;
pub(crate) mod status;
pub(crate) mod stop;
pub(crate) mod write;
