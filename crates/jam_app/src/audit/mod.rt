//! What `audit` reads beside the application, and the report that it makes.
pub(crate) mod advisories;
pub(crate) mod lockfile;
pub(crate) mod named;
pub(crate) mod noted;
pub(crate) mod notes;
pub(crate) mod report;
pub(crate) mod showing;
