//! Names of kinds, and files of port tables.

use lg_kinds::{Kind, PartFault, PortTable, kind_name, kind_of, read_port_table};
use std::alloc::{AllocError, Global};

#[test]
fn kinds_have_names_in_accepted_libraries(rt: HostRuntime) {
    let alloc = rt.alloc();
    let found = kind_of(alloc, Some("#I/O"), "J-K Flip-Flop");
    assert!(rt; matches!(&found, Ok(kind) if kind_name(*kind) == "J-K Flip-Flop"));
    let none = kind_of(alloc, None, "Pin");
    assert!(rt; matches!(&none, Err(PartFault::OutsideLibrary { lib }) if lib.is_empty()));
    let other = kind_of(alloc, Some("#TTL"), "Gate");
    assert!(rt; matches!(&other, Err(PartFault::OutsideLibrary { lib }) if lib.as_str() == "#TTL"));
    let unknown = kind_of(alloc, Some("#Gates"), "Gate");
    assert!(rt;
        matches!(&unknown, Err(PartFault::UnknownKind { name }) if name.as_str() == "Gate")
    );
}

#[test]
fn the_printed_table_replaces_nothing(rt: HostRuntime) {
    let table = PortTable::printed(rt.alloc());
    assert!(rt; table.default_of(Kind::Pin, "width").is_none());
    assert!(rt; table.place_of(Kind::Pin, "p").is_none());
    assert!(rt; table.delay_of(Kind::Adder).is_none());
    assert!(rt; table.sheet_row("main", "A").is_none());
    assert!(rt; table.sheet_rows("main") == 0);
}

// Whether a port table is refused for the record of this number.
fn is_bad(alloc: Global, text: &str, number: u32) -> bool {
    let table = read_port_table(alloc, text.as_bytes());
    matches!(&table, Err(PartFault::BadTable { row }) if *row == number)
}

// Texts of port tables, and the number of the first record out of form.
const BAD_TABLES: [(&str, u32); 9] = [
    ("", 0),
    ("\n\n", 0),
    ("row,name,item,b,a\n", 0),
    ("row,name,item,a\n", 0),
    ("row,name,item,a,b,c\n", 0),
    ("delay,Adder,,1,\n", 0),
    ("row,name,item,a,b\ndelay,Adder,,1,\ndelay,Adder,,256,\n", 2),
    ("row,name,item,a,b\n\ndelay,Adder,,0,\ndelay,Adder,,0,\n", 1),
    ("row,name,item,a,b\nrow,name,item,a,b\n", 1),
];

#[test]
fn the_first_record_out_of_form_is_named(rt: HostRuntime) {
    for (text, number) in BAD_TABLES {
        assert!(rt; is_bad(rt.alloc(), text, number), "{text}");
    }
}

// Records that have one of the four forms, a line each.
const IN_FORM: &str = "port,AND Gate,in63,0,0
port,NOT Gate,in,10000,-10000
port,NOT Gate,in,-10000,10000
port,NOT Gate,in,-0,0
port,Demultiplexer,out31,0,0
port,Bit Extender,ext,0,0
port,Shift Register,d63,0,0
port,Shift Register,q,0,0
port,Pin,p,0,0
delay,Adder,,1,
delay,Adder,,255,
delay,Pin,,9,
default,AND Gate,negate63,true,
default,AND Gate,inputs,65,
default,XOR Gate,xor,odd,
default,Splitter,bit63,none,
default,Pin,label,,
default,Pin,facing,west,
default,Counter,max,7,
default,ROM,contents,,
circuit,half,A,0,0
circuit,half,A,-10000,10000
circuit,AND Gate,in0,1,2
\"circuit\",\"a,b\",\"A\",1,2";

// Records that have none, a line each.
const OUT_OF_FORM: &str = "port,AND Gate,in64,0,0
port,AND Gate,in,0,0
port,AND Gate,in01,0,0
port,And Gate,in0,0,0
port,NOT Gate,in,10001,0
port,NOT Gate,in,0,-10001
port,NOT Gate,in,+1,0
port,NOT Gate,in,01,0
port,NOT Gate,in,-01,0
port,NOT Gate,in,,0
port,NOT Gate,in,-,0
port,NOT Gate,in,0
port,NOT Gate,in,0,0,
port,NOT Gate,in0,0,0
port,Splitter,c,0,0
port,Splitter,end0,0,0
port,Demultiplexer,out32,0,0
port,Shift Register,q64,0,0
port,Probe,p,0,0
delay,Adder,,0,
delay,Adder,,256,
delay,Adder,,01,
delay,Adder,,+1,
delay,Adder,,,
delay,Adder,in,1,
delay,Adder,,1,2
delay,Probe,,9,
delay,main,,9,
default,AND Gate,negate64,true,
default,AND Gate,negate,true,
default,AND Gate,xor,1,
default,AND Gate,inputs,3,4
default,Splitter,bit64,none,
default,Register,facing,west,
default,LED,facing,west,
circuit,half,A,10001,0
circuit,half,A,0,x
Circuit,half,A,0,0
ports,NOT Gate,in,0,0
,,,,
 
row,name,item,a,b";

// Whether a record is read behind the header.
fn is_record(alloc: Global, record: &str) -> Result<bool, AllocError> {
    let text = format!(in alloc; "row,name,item,a,b\n{record}\n")?;
    Ok(read_port_table(alloc, text.as_bytes()).is_ok())
}

#[test]
fn records_have_one_of_four_forms(rt: HostRuntime) {
    for record in IN_FORM.lines() {
        let read = is_record(rt.alloc(), record);
        assert!(rt; matches!(&read, Ok(true)), "{record}");
    }
    for record in OUT_OF_FORM.lines() {
        let read = is_record(rt.alloc(), record);
        assert!(rt; matches!(&read, Ok(false)), "{record}");
    }
}

const REPLACING: &str = "\u{feff}row,name,item,a,b\r
circuit,half,A,10,-0\r
circuit,half,B,0,5\r
circuit,other,A,1,1\r
circuit,half,A,-10000,30\r
default,Register,width,16,\r
default,Counter,width,2,\r
default,Register,width,4,\r
delay,Adder,,255,\r
delay,Adder,,1,\r
port,NOT Gate,in,-90,0\r
port,NOT Gate,in,-50,5";

#[test]
fn a_later_record_replaces_an_earlier_one(rt: HostRuntime) {
    let Ok(table) = read_port_table(rt.alloc(), REPLACING.as_bytes()) else {
        assert!(rt; false);
        return;
    };
    assert!(rt; table.sheet_row("half", "A") == Some((-10_000, 30)));
    assert!(rt; table.sheet_row("half", "C").is_none());
    assert!(rt; table.sheet_rows("half") == 2);
    assert!(rt; table.sheet_rows("other") == 1);
    assert!(rt; table.sheet_rows("main") == 0);
    assert!(rt; table.default_of(Kind::Register, "width") == Some("4"));
    assert!(rt; table.default_of(Kind::Counter, "width") == Some("2"));
    assert!(rt; table.default_of(Kind::Counter, "facing").is_none());
    assert!(rt; matches!(table.delay_of(Kind::Adder), Some(instants) if instants.get() == 1));
    assert!(rt; table.delay_of(Kind::Subtractor).is_none());
    assert!(rt; table.place_of(Kind::NotGate, "in") == Some((-50, 5)));
    assert!(rt; table.place_of(Kind::NotGate, "out").is_none());
}
