//! Texts and the projects that they say. Texts that are refused are cases of `lg_cases`.

use lg_circ::*;
use std::alloc::{AllocError, Global};
use std::fmt::Write;
use std::test::Fail;

const AND_NOT: &str = "<?xml version=\"1.0\" encoding=\"UTF-8\" standalone=\"no\"?>
<project source=\"3.8.0\" version=\"1.0\">
  This file is intended to be loaded by Logisim-evolution.
  <lib desc=\"#Wiring\" name=\"0\"/><lib desc=\"#Gates\" name=\"1\"/>
  <lib desc=\"#I/O\" name=\"5\"/><lib desc=\"#Base\" name=\"8\"/>
  <main name=\"main\"/>
  <options><a name=\"gateUndefined\" val=\"ignore\"/>
    <a name=\"simlimit\" val=\"1000\"/><a name=\"simrand\" val=\"0\"/></options>
  <mappings><tool lib=\"8\" map=\"Button2\" name=\"Menu Tool\"/></mappings>
  <toolbar><tool lib=\"8\" name=\"Edit Tool\"/><sep/></toolbar>
  <circuit name=\"main\"><a name=\"circuit\" val=\"main\"/>
    <comp lib=\"0\" loc=\"(100,60)\" name=\"Pin\"><a name=\"label\" val=\"A\"/></comp>
    <comp lib=\"0\" loc=\"(100,80)\" name=\"Pin\"><a name=\"label\" val=\"B\"/></comp>
    <comp lib=\"1\" loc=\"(180,70)\" name=\"AND Gate\"><a name=\"size\" val=\"30\"/></comp>
    <comp lib=\"1\" loc=\"(240,70)\" name=\"NOT Gate\"/>
    <comp lib=\"0\" loc=\"(280,70)\" name=\"Pin\"><a name=\"facing\" val=\"west\"/>
      <a name=\"output\" val=\"true\"/><a name=\"label\" val=\"Y\"/></comp>
    <comp lib=\"5\" loc=\"(280,70)\" name=\"LED\"/>
    <wire from=\"(100,60)\" to=\"(150,60)\"/><wire from=\"(100,80)\" to=\"(150,80)\"/>
    <wire from=\"(180,70)\" to=\"(210,70)\"/><wire from=\"(240,70)\" to=\"(280,70)\"/>
  </circuit>
</project>
";

/// As it is saved with line ends of Windows: tools with settings, shapes drawn by hand, two sheets, one in the other.
const SAVED: &str =
    "<?xml version=\"1.0\" encoding=\"UTF-8\" standalone=\"no\"?>\r\n<project source=\"3.9.0\" version=\"1.0\">\r\n\
    <lib desc=\"#Wiring\" name=\"0\">\r\n<tool name=\"Pin\">\r\n<a name=\"appearance\" val=\"classic\"/>\r\n</tool>\r\n</lib>\r\n\
    <lib desc=\"file#own.circ\" name=\"1\"/>\r\n<main name=\"top\"/>\r\n\
    <options>\r\n<a name=\"gateUndefined\" val=\"error\"/>\r\n<a name=\"simlimit\" val=\"64\"/>\r\n</options>\r\n\
    <mappings>\r\n<tool lib=\"8\" map=\"Ctrl Button1\" name=\"Menu Tool\"/>\r\n</mappings>\r\n\
    <toolbar>\r\n<tool lib=\"0\" name=\"Pin\">\r\n<a name=\"facing\" val=\"west\"/>\r\n</tool>\r\n<sep/>\r\n</toolbar>\r\n\
    <circuit name=\"half\">\r\n<a name=\"simulationFrequency\" val=\"1.0\"/>\r\n<appear>\r\n<rect height=\"20\" name=\"r\" x=\"50\"/>\r\n</appear>\r\n</circuit>\r\n\
    <circuit name=\"top\">\r\n<comp loc=\"(-10,0)\" name=\"half\"/>\r\n</circuit>\r\n</project>";

/// What a project says, a line for each part.
fn told(alloc: Global, project: &Project) -> Result<String, AllocError> {
    let mut out = String::new(alloc);
    let main = project.main.as_ref().map_or("-", |main| main.as_str());
    writeln!(
        out,
        "main {main} strict {} limit {}",
        project.strict, project.limit
    )?;
    for lib in project.libs.as_slice() {
        writeln!(out, "lib {} {}", lib.0.as_str(), lib.1.as_str())?;
    }
    for sheet in project.sheets.as_slice() {
        writeln!(out, "circuit {}", sheet.name.as_str())?;
        for comp in sheet.comps.as_slice() {
            let lib = comp.lib.as_ref().map_or("-", |lib| lib.as_str());
            let name = comp.name.as_str();
            writeln!(out, "comp {lib} {name} {} {}", comp.loc.x, comp.loc.y)?;
            for a in comp.attrs.list.as_slice() {
                writeln!(out, "a {} {}", a.0.as_str(), a.1.as_str())?;
            }
        }
        for wire in sheet.wires.as_slice() {
            writeln!(out, "wire {} {}", wire.from.x, wire.from.y)?;
            writeln!(out, "to {} {}", wire.to.x, wire.to.y)?;
        }
    }
    Ok(out)
}

#[test]
fn projects_are_read(rt: HostRuntime) -> Result<(), Fail> {
    let cases = [
        (
            AND_NOT,
            "main main strict false limit 1000\nlib 0 #Wiring\nlib 1 #Gates\nlib 5 #I/O\nlib 8 #Base\ncircuit main\n\
             comp 0 Pin 100 60\na label A\ncomp 0 Pin 100 80\na label B\ncomp 1 AND Gate 180 70\na size 30\n\
             comp 1 NOT Gate 240 70\ncomp 0 Pin 280 70\na facing west\na output true\na label Y\ncomp 5 LED 280 70\n\
             wire 100 60\nto 150 60\nwire 100 80\nto 150 80\nwire 180 70\nto 210 70\nwire 240 70\nto 280 70\n",
        ),
        (
            SAVED,
            "main top strict true limit 64\nlib 0 #Wiring\nlib 1 file#own.circ\ncircuit half\ncircuit top\ncomp - half -10 0\n",
        ),
        ("<project/>", "main - strict false limit 1000\n"),
        (
            "<project><circuit name=''><comp loc='(-0,0000010)' name='&amp;'><a name='b'> \u{e9}<x>no</x>&#65;<!-- c -->\n</a>\
             <a name='b' val=''>x</a></comp><wire to='(-1000000,1)' from='(1000000,-1)'/></circuit><main name='a'/><main name='b'/></project>",
            "main a strict false limit 1000\ncircuit \ncomp - & 0 10\na b  \u{e9}A\n\na b \nwire 1000000 -1\nto -1000000 1\n",
        ),
        (
            "<project><main/><main name='b'/><a/><wire/><circuit name='c'><a/><wire from='(1,2)' to='(3,4)'><a/></wire></circuit>\
             <lib name='0'><a/></lib><options/><options><a/></options></project>",
            "main - strict false limit 1000\nlib 0 \ncircuit c\nwire 1 2\nto 3 4\n",
        ),
    ];
    for (text, want) in cases {
        let project = read_project(rt.alloc(), text.as_bytes())?;
        let lines = told(rt.alloc(), &project)?;
        assert_eq!(rt; lines.as_str(), want);
    }
    Ok(())
}

#[test]
fn options_set_the_limit(rt: HostRuntime) -> Result<(), Fail> {
    let cases = [
        ("<a name='simlimit' val='1000000'/>", 1_000_000),
        ("<a name='simlimit'>0012</a>", 12),
        ("<a name='simlimit' val='0'/>", 1000),
        ("<a name='simlimit' val='1000001'/>", 1000),
        ("<a name='simlimit' val='99999999999999999999'/>", 1000),
        ("<a name='simlimit' val='+5'/>", 1000),
        (
            "<a name='simlimit' val='x'/><a name='simlimit' val='7'/>",
            1000,
        ),
        (
            "<a name='simlimit' val='7'/><a name='simlimit' val='8'/>",
            7,
        ),
    ];
    for (options, limit) in cases {
        let text = format!(in rt.alloc(); "<project><options>{options}</options></project>")?;
        let project = read_project(rt.alloc(), text.as_bytes())?;
        assert_eq!(rt; project.limit, limit, "{options}");
    }
    Ok(())
}

#[test]
fn bytes_that_are_no_text_are_no_project(rt: HostRuntime) {
    let bytes = b"<project a='\xff'/>".as_slice();
    let fault = read_project(rt.alloc(), bytes).err();
    assert_eq!(rt; fault, Some(CircFault::NotProject));
}

#[test]
fn the_length_is_bounded(rt: HostRuntime) -> Result<(), Fail> {
    let mut text = vec![in rt.alloc(); b' '; GREATEST_LENGTH - 10]?;
    text.extend_from_slice(b"<project/>")?;
    assert_eq!(rt; read_project(rt.alloc(), text.as_slice())?.limit, 1000);
    text.push(b' ')?;
    let result = read_project(rt.alloc(), text.as_slice());
    assert!(rt; matches!(result, Err(CircFault::TooLong)));
    Ok(())
}
