//! Looking up the entries of a lockfile.
ghost use Rattle.std.specs.Prelude.{◌≡◌, ◌<◌, ◌≤◌, ◌++◌, ◌∷◌, [], List, codes, length};
ghost use Rattle.std.specs.Bool.{MatchBool};
ghost use Rattle.std.specs.List.{find};
ghost use Rattle.std.specs.Option.{option_map};
ghost use Rattle.lock_reader.specs.Texts.{after_front as after_front_of};
ghost use Rattle.std.specs.Str.{bytes_eq};
ghost use Rattle.lock_reader.specs.declared.lock.LockEntry.{LockEntry};
ghost use Rattle.lock_reader.specs.Owner.{IsOwner, enters_modules as enters_modules_of, owns as owns_of, within as within_of};

use crate::lock::{Lock, LockEntry};
use jam_base::ModulePath;

/// What follows these characters at the front of a text.
pub fn after_front<'t>(front: &str, text: &'t str) -> Option<&'t str>
    ensures { option_map (λ rest. rest.now) result ≡ after_front_of front.now text.now }
{
    text.strip_prefix(front)
}

/// What is left of a path within the folder at a location; the empty location is the application folder.
pub fn within<'t>(location: &str, path: &'t str) -> Option<&'t str>
    ensures { option_map (λ rest. rest.now) result ≡ within_of location.now path.now }
{
    if location.is_empty() {
        return Some(path);
    }
    match after_front(location, path) {
        Some(rest) => after_front("/", rest),
        None => None,
    }
}

/// Whether a part of a path is `node_modules`.
fn is_modules(part: &str) -> bool
    ensures { result ≡ bytes_eq part.now (codes "node_modules") }
{
    part == "node_modules"
}

/// Whether some part of the path is `node_modules`.
fn enters_modules(path: &str) -> bool
    ensures { result ≡ enters_modules_of path.now }
{
    path.split('/').any(|part| is_modules(part))
}

/// Whether the path lies in the package at a location, and in none further down.
pub(crate) fn owns(location: &str, path: &str) -> bool
    ensures { result ≡ owns_of location.now path.now }
{
    match within(location, path) {
        Some(rest) => !enters_modules(rest),
        None => false,
    }
}

impl Lock {
    /// The entry at a location. It takes no memory.
    pub fn entry(&self, location: &str) -> Option<&LockEntry>
        ensures { option_map (λ e. e.now) result ≡ find (λ e. bytes_eq e.location location.now) self.now.entries }
    {
        self.entries
            .as_slice()
            .iter()
            .find(|e| e.location.as_str() == location)
    }

    /// The entry of the package that a path belongs to: the one with the longest location that is
    /// empty or a folder above the path, with no part `node_modules` between. It takes no memory.
    pub fn owner(&self, path: &ModulePath) -> Option<&LockEntry>
        ensures { IsOwner self.now.entries path.now (option_map (λ e. e.now) result) }
    {
        let path = path.as_str();
        let mut owner = None;
        for entry in self.entries.as_slice() {
            owner = longer_owner(owner, entry, path);
        }
        owner
    }
}

/// Whether the first entry has the longer location, in bytes.
fn is_longer(entry: &LockEntry, other: &LockEntry) -> bool
    ensures { MatchBool result (length other.now.location < length entry.now.location) (length entry.now.location ≤ length other.now.location) }
{
    other.location.as_str().len() < entry.location.as_str().len()
}

/// The owner of a path among some entries and one more, given the owner among those.
fn longer_owner<'e>(
    owner: Option<&'e LockEntry>,
    entry: &'e LockEntry,
    path: &str,
) -> Option<&'e LockEntry>
    ensures { (entries : List LockEntry) → IsOwner entries path.now (option_map (λ e. e.now) owner.entry)
        → IsOwner (entries ++ entry.now ∷ []) path.now (option_map (λ e. e.now) result) }
{
    if !owns(entry.location.as_str(), path) {
        return owner;
    }
    match owner {
        None => Some(entry),
        Some(longest) => {
            if is_longer(entry, longest) {
                Some(entry)
            } else {
                owner
            }
        }
    }
}
