//! The owner of a path, found by the folders above it.
ghost use Rattle.std.specs.Prelude.{◌≡◌, ◌↔◌, ℕ, Some};
ghost use Rattle.lock_reader.specs.Lock.{IsAscending};
ghost use Rattle.lock_reader.specs.Owner.{IsOwnerAt};
ghost use Rattle.lock_reader.specs.Places.{OwnsFrom, StandsAt};

use crate::lock::{Lock, LockEntry};
use crate::owner::owns;
use jam_base::ModulePath;

// The place of the entry at a location.
fn place_of(entries: &[LockEntry], location: &str) -> Option<usize>
    requires { IsAscending entries.now }
    ensures { (place : ℕ) → (result ≡ Some place) ↔ StandsAt entries.now place location.now }
{
    match entries.binary_search_by(|entry| entry.location.as_str().cmp(location)) {
        Ok(place) => Some(place),
        Err(_) => None,
    }
}

// The place of the entry at a location, if it owns the path.
fn owner_at(entries: &[LockEntry], location: &str, path: &str) -> Option<usize>
    requires { IsAscending entries.now }
    ensures { OwnsFrom entries.now location.now path.now result }
{
    if !owns(location, path) {
        return None;
    }
    place_of(entries, location)
}

impl Lock {
    /// The place of the entry that `owner` finds, by the folders above the path, the nearest first. It
    /// takes no memory, and looks at few entries.
    pub fn owner_place(&self, path: &ModulePath) -> Option<usize>
        requires { IsAscending self.now.entries }
        ensures { IsOwnerAt self.now.entries path.now result }
    {
        let entries = self.entries.as_slice();
        let path = path.as_str();
        let mut folder = path;
        while let Some((above, _)) = folder.rsplit_once("/") {
            if let Some(place) = owner_at(entries, above, path) {
                return Some(place);
            }
            folder = above;
        }
        owner_at(entries, "", path)
    }
}
