//! Whether the attributes of a component have values in their ranges.

ghost use Rattle.std.specs.Prelude.{◌≡◌, IfErr, OnOk};
ghost use Rattle.lg_ports.specs.Given.{seen_given};
ghost use Rattle.lg_ports.specs.Judged.{AllFit, RowFits, EntryFits, Refuses, RefusesIn, RefusesAt};
ghost use Rattle.lg_kinds.specs.Rows.{seen_attribute};

use crate::given::Given;
use crate::range::is_in;
use lg_kinds::rows::AttributeRow;
use lg_kinds::{PartFault, entry, name_at};
use lg_text::Text;
use std::alloc::Global;

// Refuses the first attribute, in the order of the kind's table, whose value is out of its range.
pub fn judge(alloc: Global, given: &Given) -> Result<(), PartFault>
    ensures fit { OnOk result (AllFit (seen_given given.now)) }
    ensures refused { IfErr result (λ fault. Refuses (seen_given given.now) fault) }
{
    for row in entry(given.kind).attributes {
        judge_row(alloc, given, row)?;
    }
    Ok(())
}

fn judge_row(alloc: Global, given: &Given, row: &AttributeRow) -> Result<(), PartFault>
    ensures fit { OnOk result (RowFits (seen_given given.now) (seen_attribute row.now)) }
    ensures refused { IfErr result (λ fault. RefusesIn (seen_given given.now) (seen_attribute row.now) fault) }
{
    for k in 0..given.count(row.1) {
        judge_one(alloc, given, row, k)?;
    }
    Ok(())
}

fn judge_one(alloc: Global, given: &Given, row: &AttributeRow, k: u32) -> Result<(), PartFault>
    ensures fit { OnOk result (EntryFits (seen_given given.now) (seen_attribute row.now) k) }
    ensures refused { IfErr result (λ fault. RefusesAt (seen_given given.now) (seen_attribute row.now) k fault) }
{
    let name = name_at(alloc, row.0, row.1, k)?;
    let Some(text) = given.value_of(row, name.as_str()) else {
        return Ok(());
    };
    if is_in(row.2, given, text) {
        return Ok(());
    }
    let value = Text::copy_of(alloc, text)?;
    Err(PartFault::BadAttr { name, value })
}
