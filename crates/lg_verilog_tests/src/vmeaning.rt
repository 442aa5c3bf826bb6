//! What a caller may ask of a valid module, a register of four bits. Modules that run on rows, and those that break a rule,
//! are cases of `lg_cases`.

use lg_verilog::read_module;
use lg_vmeaning::{Valid, valid};
use lg_vtree::Memory;
use sqlite_items::Items;
use std::alloc::Global;
use std::process::Abort;
use std::test::Fail;

const REGISTER: &str =
    "module c_(input wire clk, input wire [3:0] i_D, output wire [3:0] o_Q, output wire o_Z); reg [3:0] r_0 = 4'd9; assign o_Q = r_0; assign o_Z = (r_0 == i_D); always @(posedge clk) begin r_0 <= i_D; end endmodule";

fn register(rt: &impl Abort, alloc: Global) -> Valid {
    let module = read_module(alloc, REGISTER.as_bytes())
        .ok()
        .expect(rt, "a module");
    valid(alloc, module).ok().expect(rt, "a valid module")
}

// The outputs for one input from the start on, before and after so many edges.
fn outputs_after(
    alloc: Global,
    module: &Valid,
    row: &[u64],
    edges: u32,
) -> Result<Option<Vec<u64>>, Memory> {
    if !module.fits(row) {
        return Ok(None);
    }
    let mut regs = module.start(alloc)?;
    for _ in 0..edges {
        module.edge(alloc, &mut regs, row)?;
    }
    Ok(Some(module.eval(alloc, &regs, row)?))
}

#[test]
fn a_register_by_its_edges(rt: HostRuntime) {
    let alloc = rt.alloc();
    let module = register(&rt, alloc);
    let cases = [
        (3, 0, [9, 0]),
        (3, 1, [3, 1]),
        (3, 2, [3, 1]),
        (9, 0, [9, 1]),
    ];
    for (input, edges, want) in cases {
        let outputs = outputs_after(alloc, &module, &[input], edges)
            .ok()
            .flatten();
        let outputs = outputs.expect(&rt, "outputs");
        assert_eq!(rt; outputs.as_slice(), want.as_slice());
    }
}

#[test]
fn what_fits_a_register(rt: HostRuntime) {
    let module = register(&rt, rt.alloc());
    assert!(rt; module.fits(&[15]));
    assert!(rt; !module.fits(&[16]));
    assert!(rt; !module.fits(&[]));
    assert!(rt; !module.fits(&[1, 1]));
    assert_eq!(rt; module.inputs().len(), 1);
    assert_eq!(rt; module.outputs().len(), 2);
    for line in module.inputs() {
        assert_eq!(rt; line.name.as_str(), "i_D");
        assert_eq!(rt; line.width, 4);
    }
}

#[test]
fn a_module_with_an_edge_is_clocked(rt: HostRuntime) {
    let alloc = rt.alloc();
    let text = "module c_(input wire clk); always @(posedge clk) begin end endmodule";
    let edge = read_module(alloc, text.as_bytes()).ok().expect(&rt, text);
    assert!(rt; matches!(&valid(alloc, edge), Ok(v) if v.clocked()));
    let text = "module c_(input wire clk); endmodule";
    let none = read_module(alloc, text.as_bytes()).ok().expect(&rt, text);
    assert!(rt; matches!(&valid(alloc, none), Ok(v) if !v.clocked()));
}
