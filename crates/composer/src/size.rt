//! How large the parts of an application are.
ghost use Rattle.std.specs.Prelude.{◌≡◌, ◌*◌, ◌≤◌, length};
ghost use Rattle.std.specs.List.{sum_by};
ghost use Rattle.composer.specs.Parts.{lists_of};
ghost use Rattle.composer.specs.Sizes.{function_size, made_size, module_size, site_size, size_of as composed_size};

use crate::application::Part;
use flow_fold::Summary;
use js_scopes::{FunctionInfo, SiteInfo};

/// The size from which on parts are too wide to be composed.
pub const SIZE_LIMIT: u128 = 4_294_967_295;

/// The size of the parts, with the flows that the texts of their modules give: 100, for each part 1, its
/// requires and twice these flows, for each of its functions 3 and its parameters, and for each of its
/// sites 4 and its arguments.
pub fn size_of(parts: &[Part]) -> u128
    requires { length parts.now ≤ 4294967295 }
    ensures size { result ≡ made_size parts.now }
    ensures enough { composed_size (lists_of parts.now) ≤ result }
{
    let mut size: u128 = 100;
    for part in parts {
        size += part_size(&part.summary);
    }
    size
}

fn part_size(summary: &Summary) -> u128
    ensures size { result ≡ module_size summary.now.made summary.now.lists }
    ensures enough { module_size (length summary.now.lists.flows) summary.now.lists ≤ result }
    ensures bounded { result ≤ 73786976294838206464 }
{
    let requires_ = summary.requires_().len() as u128;
    let flows = summary.made() as u128;
    let functions = functions_size(summary.functions());
    let sites = sites_size(summary.sites());
    1 + requires_ + 2 * flows + functions + sites
}

fn functions_size(functions: &[FunctionInfo]) -> u128
    ensures size { result ≡ sum_by function_size functions.now }
    ensures bounded { result ≤ length functions.now * 4294967299 }
{
    let mut size: u128 = 0;
    for info in functions {
        size += 3 + info.params as u128;
    }
    size
}

fn sites_size(sites: &[SiteInfo]) -> u128
    ensures size { result ≡ sum_by site_size sites.now }
    ensures bounded { result ≤ length sites.now * 4294967299 }
{
    let mut size: u128 = 0;
    for site in sites {
        size += 4 + site.args as u128;
    }
    size
}
