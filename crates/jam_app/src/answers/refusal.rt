//! Why a request is refused.
use advisory_reader::AdvisoryFault;
use jam_base::ModulePath;
use js_parser::Construct;
use lock_reader::LockFault;

/// Why a request is refused.
#[derive(Debug, PartialEq, Eq, Drop)]
pub enum Refusal {
    /// Neither `npm-shrinkwrap.json` nor `package-lock.json` is in the application folder.
    NoLock,
    /// The first of the two that is there is no lockfile; never for want of memory.
    Lock(LockFault),
    /// The operand names no file in the application folder.
    NoAdvisories,
    /// The file of advisories isn't as it must be; never for want of memory.
    Advisory(AdvisoryFault),
    /// The entry isn't a file that can be one.
    NoEntry,
    /// The application has more than 16,384 modules, or their texts have more than 67,108,864 bytes
    /// together.
    TooMany {
        /// How many modules there are up to the first that is one too many, with it.
        modules: u32,
        /// How many bytes their texts have together. The file of module 16,385 isn't read, and counts as 0.
        bytes: u64,
    },
    /// The text of a module has more than 8,388,608 bytes.
    TooLarge {
        /// The path of the module.
        path: ModulePath,
        /// How many bytes its text has.
        length: u64,
    },
    /// No tree spells the text of a module, and reading stopped at a construct that the profile leaves out.
    Construct {
        /// The path of the module.
        path: ModulePath,
        /// The offset in bytes, from 0, of the construct's word.
        at: u32,
        /// Which one.
        what: Construct,
    },
    /// No tree spells the text of a module, and reading stopped elsewhere.
    NotInProfile {
        /// The path of the module.
        path: ModulePath,
        /// The offset in bytes, from 0, at which reading stopped.
        at: u32,
    },
    /// The modules are too wide for their composition.
    TooWide {
        /// Their size: 100, and for each module 1, its requires, twice its flows, 3 for each function and
        /// its parameters, and 4 for each site and its arguments.
        size: u128,
    },
}
