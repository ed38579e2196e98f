//! The sites of a call.
ghost use Rattle.std.specs.Prelude.{◌≡◌, ◌++◌, ◌∷◌, [], OnOk};
ghost use Rattle.js_scopes.specs.Calls as seen;

use crate::site::SiteInfo;
use jam_base::{OutOfMemory, Text};

// Adds the sites of a call with so many arguments that have a place, whose callee is a member of this
// name or none.
pub(crate) fn push_call_sites(
    holder: u32,
    member: &Option<Text>,
    offset: u32,
    count: u32,
    out: &mut Vec<SiteInfo>,
) -> Result<(), OutOfMemory>
    ensures { OnOk result (out.new.items ≡ out.old.items ++ seen.call_sites holder member.now offset count) }
{
    push_site(holder, offset, count, out)?;
    match member {
        None => Ok(()),
        Some(name) => push_reflected(holder, name.as_str(), offset, count, out),
    }
}

// Adds a site with so many arguments that have a place.
pub(crate) fn push_site(
    holder: u32,
    offset: u32,
    args: u32,
    out: &mut Vec<SiteInfo>,
) -> Result<(), OutOfMemory>
    ensures { OnOk result (out.new.items ≡ out.old.items ++ seen.site_at holder offset args ∷ []) }
{
    out.push(SiteInfo {
        offset,
        part: 0,
        holder,
        args,
    })?;
    Ok(())
}

// Adds the site of the call that a member of this name passes on.
fn push_reflected(
    holder: u32,
    name: &str,
    offset: u32,
    count: u32,
    out: &mut Vec<SiteInfo>,
) -> Result<(), OutOfMemory>
    ensures { OnOk result (out.new.items ≡ out.old.items ++ seen.reflected_sites holder name.now offset count) }
{
    if is_reflected(name) {
        out.push(SiteInfo {
            offset,
            part: 1,
            holder,
            args: passed_on(name, count),
        })?;
    }
    Ok(())
}

/// Whether a member of this name passes the call on to the function that it is a member of.
pub fn is_reflected(name: &str) -> bool
    ensures { result ≡ seen.is_reflected name.now }
{
    name == "call" || name == "apply" || name == "bind"
}

// How many arguments a member of this name passes on by their places.
fn passed_on(name: &str, count: u32) -> u32
    ensures { result ≡ seen.passed_on name.now count }
{
    if name == "apply" {
        0
    } else {
        count.saturating_sub(1)
    }
}
