//! What is exported, as text.

ghost use Rattle.std.specs.Prelude.{◌≡◌};
ghost use Rattle.lg_netlist.specs.Static.{has_no_clock};

use crate::samples::{Gate, Pins, netlist};
use lg_export::export;
use lg_netlist::{Cell, Netlist};
use std::test::Fail;

const CASES: [(Pins, &'static [Gate], &'static str); 4] = [
    (&[], &[], "module c_main(\n);\nendmodule\n"),
    // Each bit of a pin goes to a gate of its own, and from there to a bit of another pin.
    (
        &[(true, "A", &[0, 1, 2, 3]), (false, "Y", &[4, 5, 6, 7])],
        &[
            (Cell::Not, &[Some(0)], Some(4)),
            (Cell::Not, &[Some(1)], Some(5)),
            (Cell::Not, &[Some(2)], Some(6)),
            (Cell::Not, &[Some(3)], Some(7)),
        ],
        "module c_main(\n  input wire [3:0] i_A,\n  output wire [3:0] o_Y\n);\n  wire x0_0;\n  wire w0_0;\n  wire x1_0;\n  wire w1_0;\n  wire x2_0;\n  wire w2_0;\n  wire x3_0;\n  wire w3_0;\n  assign x0_0 = i_A[0];\n  assign w0_0 = (~x0_0);\n  assign x1_0 = i_A[1];\n  assign w1_0 = (~x1_0);\n  assign x2_0 = i_A[2];\n  assign w2_0 = (~x2_0);\n  assign x3_0 = i_A[3];\n  assign w3_0 = (~x3_0);\n  assign o_Y = {w3_0, w2_0, w1_0, w0_0};\nendmodule\n",
    ),
    // Bits of a pin: two in a row, all, the other way round, with one left out, all twice, and some on top of all.
    (
        &[
            (true, "A", &[0, 1, 2, 3]),
            (false, "P", &[1, 2]),
            (false, "Q", &[0, 1, 2, 3]),
            (false, "R", &[3, 2, 1, 0]),
            (false, "S", &[0, 1, 3]),
            (false, "T", &[0, 1, 2, 3, 0, 1, 2, 3]),
            (false, "U", &[0, 1, 2, 3, 1, 2]),
        ],
        &[],
        "module c_main(\n  input wire [3:0] i_A,\n  output wire [1:0] o_P,\n  output wire [3:0] o_Q,\n  output wire [3:0] o_R,\n  output wire [2:0] o_S,\n  output wire [7:0] o_T,\n  output wire [5:0] o_U\n);\n  assign o_P = i_A[2:1];\n  assign o_Q = i_A;\n  assign o_R = {i_A[0], i_A[1], i_A[2], i_A[3]};\n  assign o_S = {i_A[3], i_A[1:0]};\n  assign o_T = {i_A, i_A};\n  assign o_U = {i_A[2:1], i_A};\nendmodule\n",
    ),
    // One of two inputs is attached.
    (
        &[(true, "A", &[0]), (false, "Y", &[1])],
        &[(Cell::And, &[Some(0), None], Some(1))],
        "module c_main(\n  input wire i_A,\n  output wire o_Y\n);\n  wire x0_0;\n  wire w0_0;\n  assign x0_0 = i_A;\n  assign w0_0 = x0_0;\n  assign o_Y = w0_0;\nendmodule\n",
    ),
];

fn has_no_clock(netlist: &Netlist) -> bool
    ensures { result ≡ has_no_clock netlist.now }
{
    netlist.clocks.is_empty() && netlist.clock_pin.is_none()
}

#[test]
fn modules_as_text(rt: HostRuntime) -> Result<(), Fail> {
    let alloc = rt.alloc();
    for (pins, gates, expected) in CASES {
        let netlist = netlist(&rt, alloc, pins, gates, None)?;
        let plain = has_no_clock(&netlist);
        assert!(rt; plain);
        let module = export(alloc, &netlist)?;
        let text = lg_verilog::print(alloc, &module)?;
        assert_eq!(rt; text.as_slice(), expected.as_bytes());
    }
    Ok(())
}
