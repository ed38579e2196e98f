//! Reading one advisory.
ghost use Rattle.std.specs.Prelude.{◌≡◌, ◌⊎◌, ℕ, IfOk, IfErr};
ghost use Rattle.serde_json.specs.View.{view};
ghost use Rattle.npm_range.specs.Grammar.{IsFirstBad, Spells};
ghost use Rattle.advisory_reader.specs.Advisories.{IsAdvisory, IsWrong};
ghost use Rattle.advisory_reader.specs.declared.fault.AdvisoryFault.TheVariants as fault;

use crate::advisory::Advisory;
use crate::fault::{AdvisoryFault, Field};
use crate::selectors::{read_functions, some_text_in, text_in};
use jam_base::Text;
use npm_range::{Range, RangeFault};
use serde_json::Value;
use std::alloc::Global;

/// The range that a text spells, for the advisory at this index.
fn read_range(alloc: Global, index: u32, text: &str) -> Result<Range, AdvisoryFault>
    ensures spelled { IfOk result (λ range. Spells text.now range) }
    ensures bad { IfErr result (λ f. (f ≡ fault.OutOfMemory) ⊎ ((at : ℕ) × (f ≡ fault.Range index at) × IsFirstBad text.now at)) }
{
    match Range::read(alloc, text) {
        Ok(range) => Ok(range),
        Err(RangeFault::At { offset }) => Err(AdvisoryFault::Range { index, at: offset }),
        Err(RangeFault::OutOfMemory) => Err(AdvisoryFault::OutOfMemory),
    }
}

/// The fault that a member of the advisory at this index isn't as it must be.
fn wrong_field(index: u32, field: Field) -> AdvisoryFault
    ensures { result ≡ fault.Field index field }
{
    AdvisoryFault::Field { index, field }
}

/// The advisory that a value describes, at this index of the list.
#[tactic(auto, unfolding(crate::specs::Advisories::named_of))]
pub(crate) fn read_item(alloc: Global, index: u32, value: &Value) -> Result<Advisory, AdvisoryFault>
    ensures advisory { IfOk result (λ a. IsAdvisory (view value.now) a) }
    ensures wrong { IfErr result (λ f. (f ≡ fault.OutOfMemory) ⊎ IsWrong index (view value.now) f) }
{
    let Some(id) = some_text_in(value, "id") else {
        return Err(wrong_field(index, Field::Id));
    };
    let Some(package) = some_text_in(value, "package") else {
        return Err(wrong_field(index, Field::Package));
    };
    let Some(range) = text_in(value, "range") else {
        return Err(wrong_field(index, Field::Range));
    };
    let range = read_range(alloc, index, range)?;
    let Some(functions) = read_functions(alloc, value)? else {
        return Err(wrong_field(index, Field::Functions));
    };
    Ok(Advisory {
        id: Text::of(alloc, id)?,
        package: Text::of(alloc, package)?,
        range,
        functions,
    })
}
