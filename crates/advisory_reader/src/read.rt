//! Reading a list of advisories.
ghost use Rattle.std.specs.Prelude.{◌≡◌, ◌⊎◌, List, None, Some, IfOk, IfErr};
ghost use Rattle.std.specs.Option.{option_map};
ghost use Rattle.serde_json.specs.View.{items_view, view};
ghost use Rattle.advisory_reader.specs.Advisories.{IsFault, ReadsList, items_in as items_of_value, SpellsAdvisories};
ghost use Rattle.advisory_reader.specs.Answers.{FailsWith, Gives};
ghost use Rattle.advisory_reader.specs.declared.advisory.Advisory.{Advisory};
ghost use Rattle.advisory_reader.specs.declared.fault.AdvisoryFault.{AdvisoryFault};
ghost use Rattle.advisory_reader.specs.declared.fault.AdvisoryFault.TheVariants as fault;

use crate::advisory::Advisory;
use crate::fault::AdvisoryFault;
use crate::item::read_item;
use jam_base::List;
use json_value::read_value;
use serde_json::Value;
use std::alloc::Global;

/// The advisories that these values describe.
fn read_items(alloc: Global, values: &[Value]) -> Result<Vec<Advisory>, AdvisoryFault>
    ensures read { IfOk result (λ v. ReadsList (items_view values.now) v.items None) }
    ensures wrong { IfErr result (λ f. (f ≡ fault.OutOfMemory) ⊎ ((before : List Advisory) × ReadsList (items_view values.now) before (Some f))) }
{
    let mut advisories = Vec::new(alloc);
    for (i, value) in values.iter().enumerate() {
        let Ok(index) = u32::try_from(i) else {
            return Err(AdvisoryFault::OutOfMemory);
        };
        advisories.push(read_item(alloc, index, value)?)?;
    }
    Ok(advisories)
}

/// The items of the array `advisories`.
#[tactic(auto, unfolding(crate::specs::Advisories::items_in))]
fn items_in(value: &Value) -> Option<&Vec<Value>>
    ensures { option_map (λ v. items_view v.now.items) result ≡ items_of_value (view value.now) }
{
    match value.get("advisories") {
        Some(member) => member.as_array(),
        None => None,
    }
}

/// The advisories that the bytes spell.
fn read_bytes(alloc: Global, bytes: &[u8]) -> Result<List<Advisory>, AdvisoryFault>
    ensures spelled { IfOk result (λ list. SpellsAdvisories bytes.now list) }
    ensures fault { IfErr result (λ f. (f ≡ fault.OutOfMemory) ⊎ IsFault bytes.now f) }
{
    let Some(value) = read_value(alloc, bytes)? else {
        return Err(AdvisoryFault::NotJson);
    };
    let Some(values) = items_in(&value) else {
        return Err(AdvisoryFault::Shape);
    };
    Ok(List::of(read_items(alloc, values.as_slice())?))
}

/// Reads a list of advisories:
/// `{"advisories":[{"id":..,"package":..,"range":..,"functions":[{"file":..,"name":..}]}]}`, where all
/// members are texts, `id` and `package` not empty, and `range` reads as a `Range`. Other members are
/// passed over; of equal keys the last counts. The list has the order of the file.
///
/// Fails with the first fault, as `AdvisoryFault` says, and with `OutOfMemory`.
pub fn read_advisories(alloc: Global, bytes: &[u8]) -> Result<List<Advisory>, AdvisoryFault>
    ensures spelled { IfOk result (λ list. SpellsAdvisories bytes.now list) }
    ensures only { (expected : List Advisory) → SpellsAdvisories bytes.now expected → Gives result expected }
    ensures fault { IfErr result (λ f. (f ≡ fault.OutOfMemory) ⊎ IsFault bytes.now f) }
    ensures refused { (expected : AdvisoryFault) → IsFault bytes.now expected → FailsWith result expected }
{
    read_bytes(alloc, bytes)
}
