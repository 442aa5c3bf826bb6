//! Ports, delays and refusals that a program of its own and a person worked out from the tables of the kinds.
//!
//! Between the bars of a line stand records of a port table, a kind, attributes with `;` behind each but the last, and what
//! is told: the delay, and name, side, place, width and loose value of each port, or else the attribute that is refused.
//! `^` is a line end.

mod lines;
mod port_lists;
mod ranges;

use self::lines::{FIRST, REPLACED, TEXTS};
use self::port_lists::PORT_LISTS;
use self::ranges::RANGES;
use lg_kinds::rows::Count;
use lg_kinds::{entry, name_at};
use lg_ports::{
    Attrs, Kind, Loose, PartFault, Port, PortTable, Side, delay, kind_of, ports, read_port_table,
};
use lg_text::Text;
use sqlite_items::Items;
use std::alloc::{AllocError, Global};

// A field and what is behind the next bar.
fn cut(line: &str) -> (&str, &str) {
    line.split_once('|').unwrap_or((line, ""))
}

// The attribute that a word says, as `name=value`.
fn attribute(alloc: Global, word: &str) -> Result<(Text, Text), AllocError> {
    let (name, value) = word.split_once('=').unwrap_or((word, ""));
    let name = Text::copy_of(alloc, name)?;
    let value = Text::copy_of(alloc, value)?;
    Ok((name, value))
}

// The attributes that a text says.
fn attributes(alloc: Global, text: &str) -> Result<Attrs, AllocError> {
    let mut list = Items::new(alloc);
    for word in text.split_terminator(';') {
        list.push(attribute(alloc, word)?)?;
    }
    Ok(Attrs { list })
}

// The port table with these records behind the header.
fn table_of(alloc: Global, records: &str) -> Result<PortTable, PartFault> {
    if records.is_empty() {
        return Ok(PortTable::printed(alloc));
    }
    let text = format!(in alloc; "row,name,item,a,b\n{records}\n")?;
    read_port_table(alloc, text.as_bytes())
}

// A component: its kind, its attributes, and the table that replaces what they leave out.
#[derive(Drop)]
struct Given<'a> {
    kind: Kind,
    attrs: &'a Attrs,
    table: &'a PortTable,
}

impl<'a> Given<'a> {
    // The value of an attribute: its own, or that of the table, or the usual one.
    fn value(&self, name: &str) -> &'a str {
        if let Some(own) = self.attrs.value(name) {
            return own.as_str();
        }
        if let Some(replaced) = self.table.default_of(self.kind, name) {
            return replaced;
        }
        for row in entry(self.kind).attributes {
            if row.0 == name {
                return row.3.unwrap_or("");
            }
        }
        ""
    }

    fn number(&self, name: &str) -> u32 {
        self.value(name).parse().unwrap_or(0)
    }

    // How many ports a row stands for.
    fn count(&self, count: Count) -> u32 {
        match count {
            Count::Once => 1,
            Count::Inputs => self.number("inputs"),
            Count::Incoming => self.number("incoming"),
            Count::Selections => 1 << self.number("select").min(5),
            Count::Enabled => u32::from(self.value("enable") == "true"),
            Count::Extended => u32::from(self.value("type") == "input"),
            Count::Parallel => u32::from(self.value("parallel") == "true"),
            Count::Serial => u32::from(self.value("parallel") != "true"),
            Count::Stages if self.value("parallel") == "true" => self.number("length"),
            Count::Stages => 0,
        }
    }
}

// Adds the names of the ports of a row.
fn push_names(
    alloc: Global,
    names: &mut Items<Text>,
    name: &str,
    count: Count,
    times: u32,
) -> Result<(), AllocError> {
    for k in 0..times {
        names.push(name_at(alloc, name, count, k)?)?;
    }
    Ok(())
}

// The names of the ports of a component, but for the ends of a splitter.
fn names_of(alloc: Global, given: &Given) -> Result<Items<Text>, AllocError> {
    let mut names = Items::new(alloc);
    for row in entry(given.kind).ports {
        push_names(alloc, &mut names, row.1, row.2, given.count(row.2))?;
    }
    Ok(names)
}

fn side_word(side: Side) -> &'static str {
    match side {
        Side::In => "In",
        Side::Out => "Out",
        Side::Both => "Both",
    }
}

fn loose_word(loose: Loose) -> &'static str {
    match loose {
        Loose::Ignored => "Ignored",
        Loose::Zero => "Zero",
        Loose::One => "One",
        Loose::Unknown => "Unknown",
    }
}

// Adds a port to a text.
fn push_port(
    alloc: Global,
    text: &mut String,
    name: Option<&Text>,
    port: &Port,
) -> Result<(), AllocError> {
    let name = name.map_or("end", Text::as_str);
    let side = side_word(port.side);
    let loose = loose_word(port.loose);
    let (dx, dy, width) = (port.dx, port.dy, port.width);
    let word = format!(in alloc; " {name}:{side}:{dx},{dy}:{width}:{loose}")?;
    text.push_str(word.as_str())
}

fn delay_word(alloc: Global, delay: Option<u32>) -> Result<String, AllocError> {
    match delay {
        Some(instants) => format!(in alloc; "{instants}|"),
        None => String::from_str(alloc, "-|"),
    }
}

// The delay and the ports of a component.
fn described(alloc: Global, given: &Given) -> Result<String, PartFault> {
    let list = ports(alloc, given.kind, given.attrs, given.table)?;
    let names = names_of(alloc, given)?;
    let mut text = delay_word(alloc, delay(given.kind, given.attrs, given.table))?;
    for (place, port) in list.as_slice().iter().enumerate() {
        push_port(alloc, &mut text, names.get(place), port)?;
    }
    Ok(text)
}

// Why a component is refused: its attribute.
fn refusal(alloc: Global, fault: &PartFault) -> Result<String, AllocError> {
    match fault {
        PartFault::BadAttr { name, value } => {
            let (name, value) = (name.as_str(), value.as_str());
            format!(in alloc; "{name}={value}")
        }
        _ => String::from_str(alloc, "no component"),
    }
}

// The delay and the ports of a component that a line says.
fn component(alloc: Global, records: &str, kind: &str, text: &str) -> Result<String, PartFault> {
    let kind = kind_of(alloc, Some("#Base"), kind)?;
    let attrs = attributes(alloc, text)?;
    let table = table_of(alloc, records)?;
    let given = Given {
        kind,
        attrs: &attrs,
        table: &table,
    };
    described(alloc, &given)
}

// What is told of a component.
fn told(alloc: Global, records: &str, kind: &str, text: &str) -> Result<String, AllocError> {
    match component(alloc, records, kind, text) {
        Ok(known) => Ok(known),
        Err(fault) => refusal(alloc, &fault),
    }
}

// Whether a line is right.
fn is_right(alloc: Global, line: &str) -> bool {
    let Ok(line) = line.replace(alloc, '^', "\n") else {
        return false;
    };
    let (records, rest) = cut(line.as_str());
    let (kind, rest) = cut(rest);
    let (text, expected) = cut(rest);
    match told(alloc, records, kind, text) {
        Ok(found) => found.as_str() == expected,
        Err(_) => false,
    }
}

// The first line that is wrong; empty where none is.
fn first_wrong(alloc: Global, lines: &str) -> &str {
    for line in lines.lines() {
        if !is_right(alloc, line) {
            return line;
        }
    }
    ""
}

#[test]
fn ports_and_delays_are_those_of_the_tables(rt: HostRuntime) {
    assert_eq!(rt; first_wrong(rt.alloc(), PORT_LISTS), "");
}

#[test]
fn the_first_attribute_out_of_range_is_named(rt: HostRuntime) {
    assert_eq!(rt; first_wrong(rt.alloc(), FIRST), "");
}

#[test]
fn texts_are_values_too(rt: HostRuntime) {
    assert_eq!(rt; first_wrong(rt.alloc(), TEXTS), "");
}

#[test]
fn the_last_record_replaces_what_is_printed(rt: HostRuntime) {
    assert_eq!(rt; first_wrong(rt.alloc(), REPLACED), "");
}

// Whether a value of an attribute beside another is read, or else refused.
fn is_judged(
    alloc: Global,
    kind: &str,
    other: &str,
    pair: &str,
    read: bool,
) -> Result<bool, AllocError> {
    let text = format!(in alloc; "{pair};{other}")?;
    let found = told(alloc, "", kind, text.as_str())?;
    let refused = found.as_str() == pair;
    Ok(refused != read && found.contains('|') == read)
}

// Whether the values of an attribute are judged so.
fn are_judged(
    alloc: Global,
    kind: &str,
    other: &str,
    name: &str,
    values: &str,
    read: bool,
) -> Result<bool, AllocError> {
    for value in values.split_whitespace() {
        let pair = format!(in alloc; "{name}={value}")?;
        if !is_judged(alloc, kind, other, pair.as_str(), read)? {
            return Ok(false);
        }
    }
    Ok(true)
}

// Whether the values of a line are judged as it says.
fn is_range(alloc: Global, line: &str) -> Result<bool, AllocError> {
    let (kind, rest) = cut(line);
    let (other, rest) = cut(rest);
    let (name, rest) = cut(rest);
    let (inside, outside) = cut(rest);
    Ok(
        are_judged(alloc, kind, other, name, inside, true)?
            && are_judged(alloc, kind, other, name, outside, false)?,
    )
}

// The first line of ranges that is wrong; empty where none is.
fn first_misjudged(alloc: Global, lines: &str) -> &str {
    for line in lines.lines() {
        if !matches!(is_range(alloc, line), Ok(true)) {
            return line;
        }
    }
    ""
}

#[test]
fn values_are_judged_at_both_ends_of_their_ranges(rt: HostRuntime) {
    assert_eq!(rt; first_misjudged(rt.alloc(), RANGES), "");
}
