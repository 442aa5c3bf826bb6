//! The values that the attributes of a component have.

ghost use Rattle.std.specs.Prelude.{ℕ, List, ◌≡◌, ◌≤◌, option_map, IfOk, IfSome};
ghost use denote.Bor.{Bor};
ghost use Rattle.lg_kinds.specs.declared.rows.AttributeRow.{AttributeRow as AttributeRowSelf};
ghost use Rattle.lg_kinds.specs.declared.rows.Count.TheVariants.{Stages};
ghost use Rattle.lg_kinds.specs.Rows.{seen_attribute};
ghost use Rattle.lg_ports.specs.Given.{seen_given, row_of, value_of, value, number_of, number, is_said, once_if, selections, count_of, facing_of, numbered_value};

use lg_attrs::Attrs;
use lg_kinds::rows::{AttributeRow, Count};
use lg_kinds::{Kind, PortTable, entry, name_at};
use lg_memory::read_number;
use std::alloc::{AllocError, Global};

// The greatest number that is read so; the attributes that may have a greater one are read by `literal_of`.
const MOST: u64 = 99;

/// A component: its kind, its attributes, and the table that replaces what they leave out.
#[derive(Drop)]
pub struct Given<'a> {
    pub kind: Kind,
    pub attrs: &'a Attrs,
    pub table: &'a PortTable,
}

impl<'a> Given<'a> {
    /// The value of an attribute of a row, under its own name: its own, or that of the table, or the usual one.
    pub fn value_of(&self, row: &AttributeRow, name: &str) -> Option<&'a str>
        ensures { option_map (λ (t : Bor (List ℕ)). t.now) result ≡ value_of (seen_given self.now) (seen_attribute row.now) name.now }
    {
        if let Some(own) = self.attrs.value(name) {
            return Some(own.as_str());
        }
        match self.table.default_of(self.kind, name) {
            Some(value) => Some(value),
            None => row.3,
        }
    }

    /// The value of the attribute that has this name in the kind's table.
    pub fn value(&self, name: &str) -> Option<&'a str>
        ensures { option_map (λ (t : Bor (List ℕ)). t.now) result ≡ value (seen_given self.now) name.now }
    {
        match row_of(self.kind, name) {
            Some(row) => self.value_of(row, name),
            None => None,
        }
    }

    /// The number that an attribute has in decimal digits, 0 where it has none or one above 99. Those of 64 bits, `value` and
    /// `max`, are for `literal_of`.
    pub fn number(&self, name: &str) -> u32
        ensures number { result ≡ number (seen_given self.now) name.now }
        ensures small { result ≤ 99 }
    {
        match self.value(name) {
            Some(text) => number_of(text).unwrap_or(0),
            None => 0,
        }
    }

    /// Whether an attribute has this value.
    pub fn is(&self, name: &str, word: &str) -> bool
        ensures { result ≡ is_said (seen_given self.now) name.now word.now }
    {
        match self.value(name) {
            Some(text) => text == word,
            None => false,
        }
    }

    /// How it faces; nothing where its kind does not say.
    pub fn facing(&self) -> &'a str
        ensures { result.now ≡ facing_of (seen_given self.now) }
    {
        match self.value("facing") {
            Some(facing) => facing,
            None => "",
        }
    }

    /// The value of attribute number `k` of the row that has this name in the kind's table.
    pub fn numbered_value(
        &self,
        alloc: Global,
        name: &str,
        count: Count,
        k: u32,
    ) -> Result<Option<&'a str>, AllocError>
        ensures { IfOk result
            (λ found. option_map (λ (t : Bor (List ℕ)). t.now) found ≡ numbered_value (seen_given self.now) name.now count k) }
    {
        let own = name_at(alloc, name, count, k)?;
        match row_of(self.kind, name) {
            Some(row) => Ok(self.value_of(row, own.as_str())),
            None => Ok(None),
        }
    }

    /// How often a row stands for an attribute or a port.
    pub fn count(&self, count: Count) -> u32
        ensures count { result ≡ count_of (seen_given self.now) count }
        ensures small { result ≤ 99 }
    {
        match count {
            Count::Once => 1,
            Count::Inputs => self.number("inputs"),
            Count::Incoming => self.number("incoming"),
            Count::Selections => self.selections(),
            Count::Enabled => once_if(self.is("enable", "true")),
            Count::Extended => once_if(self.is("type", "input")),
            Count::Parallel => once_if(self.is("parallel", "true")),
            Count::Serial => once_if(!self.is("parallel", "true")),
            Count::Stages => self.stages(),
        }
    }

    // How many stages have ports of their own.
    fn stages(&self) -> u32
        ensures count { result ≡ count_of (seen_given self.now) Stages }
        ensures small { result ≤ 99 }
    {
        if self.is("parallel", "true") {
            self.number("length")
        } else {
            0
        }
    }

    /// How many numbers the select has.
    pub fn selections(&self) -> u32
        ensures count { result ≡ selections (seen_given self.now) }
        ensures small { result ≤ 32 }
    {
        1 << self.number("select").min(5)
    }
}

fn once_if(holds: bool) -> u32
    ensures count { result ≡ once_if holds }
    ensures small { result ≤ 99 }
{
    if holds { 1 } else { 0 }
}

// The row that the table of kinds has for an attribute of this name.
fn row_of(kind: Kind, name: &str) -> Option<&'static AttributeRow>
    ensures { option_map (λ (r : Bor AttributeRowSelf). seen_attribute r.now) result ≡ row_of kind name.now }
{
    for row in entry(kind).attributes {
        if row.0 == name {
            return Some(row);
        }
    }
    None
}

// The number that a text is in decimal digits, if it is at most `MOST`.
pub fn number_of(text: &str) -> Option<u32>
    ensures number { result ≡ number_of text.now }
    ensures small { IfSome result (λ n. n ≤ 99) }
{
    match read_number(text.as_bytes(), 10, MOST) {
        Some(number) => Some(number as u32),
        None => None,
    }
}
