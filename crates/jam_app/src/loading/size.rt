//! How large an application may be.

/// How many modules an application may have.
pub(crate) const MODULE_LIMIT: u32 = 16_384;

/// How many bytes the texts of its modules may have together.
pub const BYTE_LIMIT: u64 = 67_108_864;

/// How many modules there are, and how many bytes their texts have together.
#[derive(Clone, Copy, Debug)]
pub(crate) struct Size {
    pub(crate) modules: u32,
    pub(crate) bytes: u64,
}
