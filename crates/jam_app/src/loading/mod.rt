//! The modules of an application: from the operand to the loaded modules and the links between them.
pub(crate) mod ends;
pub(crate) mod links;
pub(crate) mod loaded;
pub(crate) mod module;
pub(crate) mod parts;
pub(crate) mod rounds;
pub(crate) mod size;
pub(crate) mod source;
pub(crate) mod text;
