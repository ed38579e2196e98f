//! Of which sites a vertex is the callee or an input.
ghost use Rattle.std.specs.Prelude.{◌≡◌, ◌≤◌, ◌++◌, length, IfOk, OnOk};
ghost use Rattle.composer.specs.Steps.{inputs};
ghost use Rattle.composer.specs.Work as work;
ghost use Rattle.composer.specs.Work.{places_of};

use crate::numbers::MOST;
use crate::system::{Arrow, CallSite};
use jam_base::OutOfMemory;
use std::alloc::{AllocError, Global};

/// For each site a way from its callee to its number.
pub(crate) fn callee_places(
    alloc: Global,
    sites: &[CallSite<u32>],
) -> Result<Vec<Arrow<u32>>, OutOfMemory>
    ensures { IfOk result (λ places. places.items ≡ work.callee_places 0 sites.now) }
{
    if sites.len() > MOST {
        return Err(OutOfMemory);
    }
    let mut places = Vec::new(alloc);
    for k in 0..sites.len() {
        places.push(Arrow {
            from: sites[k].callee,
            to: k as u32,
        })?;
    }
    Ok(places)
}

/// For each site ways from its inputs to its number.
pub(crate) fn input_places(
    alloc: Global,
    sites: &[CallSite<u32>],
) -> Result<Vec<Arrow<u32>>, OutOfMemory>
    ensures { IfOk result (λ places. places.items ≡ work.input_places 0 sites.now) }
{
    if sites.len() > MOST {
        return Err(OutOfMemory);
    }
    let mut places = Vec::new(alloc);
    for k in 0..sites.len() {
        push_places(&mut places, &sites[k], k as u32)?;
    }
    Ok(places)
}

fn push_places(
    places: &mut Vec<Arrow<u32>>,
    site: &CallSite<u32>,
    number: u32,
) -> Result<(), AllocError>
    ensures { OnOk result (places.new.items ≡ places.old.items ++ places_of number (inputs site.now)) }
{
    push_each(places, site.args.as_slice(), number)?;
    places.push(Arrow {
        from: site.more,
        to: number,
    })?;
    Ok(())
}

fn push_each(places: &mut Vec<Arrow<u32>>, vertices: &[u32], number: u32) -> Result<(), AllocError>
    ensures { OnOk result (places.new.items ≡ places.old.items ++ places_of number vertices.now) }
{
    for vertex in vertices {
        places.push(Arrow {
            from: *vertex,
            to: number,
        })?;
    }
    Ok(())
}
