//! Where the requires of a module lead.
ghost use Rattle.std.specs.Prelude.{◌≡◌, ◌++◌, IfOk, OnOk};
ghost use Rattle.std.specs.List.Sorted.{IsStrictlySortedBy};
ghost use Rattle.std.specs.Option.{option_to_list};
ghost use Rattle.flow_rules.specs.Flows.{require_order};
ghost use Rattle.node_resolve.specs.Targets.{target_of};
ghost use Rattle.jam_app.specs.Entries as entries;
ghost use Rattle.jam_app.specs.Loading as loaded;
ghost use Rattle.jam_app.specs.Loading.{AreLed};
ghost use Rattle.jam_app.specs.Reading as reading;
ghost use Rattle.jam_app.specs.Stops.{CountsFaults, Gives};

use crate::Stop;
use crate::loading::loaded::{Led, Missing};
use crate::loading::source::module_path;
use flow_rules::Require;
use jam_base::{Folder, ModulePath, OutOfMemory};
use node_resolve::{ResolveFault, Target, resolve};
use std::alloc::Global;

/// Where requires lead that lead to modules, and those that lead nowhere.
#[derive(Debug, Drop)]
pub(crate) struct Ends {
    pub(crate) targets: Vec<Led>,
    pub(crate) missing: Vec<Missing>,
}

// The target of a require.
fn target_by<F: Folder>(
    alloc: Global,
    folder: &mut F,
    from: &ModulePath,
    require: &Require,
) -> Result<Target, Stop>
    ensures gives { Gives (λ m target. target ≡ target_of m from.now require.now.spec)
        (λ m owed. ⊥) (F.files folder.old) (F.faults folder.old) (F.faults folder.new) result }
    ensures same { F.files folder.new ≡ F.files folder.old }
    ensures counts { CountsFaults (F.faults folder.old) (F.faults folder.new) result }
{
    match resolve(alloc, folder, from, require.spec.as_str()) {
        Ok(target) => Ok(target),
        Err(ResolveFault::ReadFault) => Err(Stop::ReadFault),
        Err(ResolveFault::OutOfMemory) => Err(Stop::OutOfMemory),
    }
}

// Where a require leads that has this target, if to a module.
fn led_to(require: &Require, target: Target) -> Option<Led>
    ensures { result ≡ reading.led_to require.now.offset (entries.module_path target) }
{
    module_path(target).map(|path| Led {
        offset: require.offset,
        path,
    })
}

// Adds where a require leads, if to a module.
fn push_led(targets: &mut Vec<Led>, led: Option<Led>) -> Result<(), OutOfMemory>
    ensures { OnOk result (targets.new.items ≡ targets.old.items ++ option_to_list led) }
{
    if let Some(led) = led {
        targets.push(led)?;
    }
    Ok(())
}

// The require, if it has no target.
fn missing_of(
    alloc: Global,
    require: &Require,
    target: &Target,
) -> Result<Option<Missing>, OutOfMemory>
    ensures { IfOk result (λ found. found ≡ loaded.missing_of require.now target.now) }
{
    match target {
        Target::Missing => Ok(Some(Missing {
            offset: require.offset,
            spec: require.spec.copy(alloc)?,
        })),
        _ => Ok(None),
    }
}

// Adds a require, if it has no target.
fn push_missing(missing: &mut Vec<Missing>, found: Option<Missing>) -> Result<(), OutOfMemory>
    ensures { OnOk result (missing.new.items ≡ missing.old.items ++ option_to_list found) }
{
    if let Some(found) = found {
        missing.push(found)?;
    }
    Ok(())
}

/// Where the requires of a module lead.
pub(crate) fn ends_of<F: Folder>(
    alloc: Global,
    folder: &mut F,
    from: &ModulePath,
    requires_: &[Require],
) -> Result<Ends, Stop>
    requires { IsStrictlySortedBy require_order requires_.now }
    ensures led { IfOk result (λ ends. AreLed requires_.now ends.targets.items) }
    ensures gives { Gives (λ m ends. reading.AreEnds m from.now requires_.now ends)
        (λ m owed. ⊥) (F.files folder.old) (F.faults folder.old) (F.faults folder.new) result }
    ensures same { F.files folder.new ≡ F.files folder.old }
    ensures counts { CountsFaults (F.faults folder.old) (F.faults folder.new) result }
{
    let mut targets = Vec::new(alloc);
    let mut missing = Vec::new(alloc);
    for require in requires_ {
        let target = target_by(alloc, folder, from, require)?;
        push_missing(&mut missing, missing_of(alloc, require, &target)?)?;
        push_led(&mut targets, led_to(require, target))?;
    }
    Ok(Ends { targets, missing })
}
