ghost use Rattle.std.specs.Prelude.{◌≤◌};

use lg_verilog::*;
use std::alloc::{AllocError, Global};
use std::test::Fail;

// What is printed for the module that is read.
fn printed(alloc: Global, text: &str) -> Result<Vec<u8>, Fail> {
    let module = read_module(alloc, text.as_bytes())
        .ok()
        .ok_or("no module is read")?;
    Ok(print(alloc, &module).ok().ok_or("memory is there")?)
}

// Whether the bytes are read, and not refused.
fn is_read(alloc: Global, bytes: &[u8]) -> Result<bool, AllocError> {
    match read_module(alloc, bytes) {
        Ok(_) => Ok(true),
        Err(ReadFault::NotSubset) => Ok(false),
        Err(ReadFault::Memory) => Err(AllocError),
    }
}

// Whether a module with this declaration or assign is read.
fn declares(alloc: Global, decl: &str) -> Result<bool, AllocError> {
    let text = format!(in alloc; "module c_main();{decl}endmodule")?;
    is_read(alloc, text.as_str().as_bytes())
}

// Whether a module with an expression that is so deep is read.
fn reads_depth(alloc: Global, depth: usize) -> Result<bool, AllocError>
    requires some { 1 ≤ depth }
    requires few { depth ≤ 200 }
{
    let open = "(~".repeat(alloc, depth - 1)?;
    let close = ")".repeat(alloc, depth - 1)?;
    let value = format!(in alloc; "assign o_Y={open}i_A{close};")?;
    declares(alloc, value.as_str())
}

// Whether a name with so many characters is read.
fn reads_name(alloc: Global, count: usize) -> Result<bool, AllocError>
    requires some { 2 ≤ count }
    requires few { count ≤ 400 }
{
    let more = "a".repeat(alloc, count - 2)?;
    let decl = format!(in alloc; "wire x0{more};")?;
    declares(alloc, decl.as_str())
}

#[test]
fn module_with_a_memory_is_printed_as_it_was_read(rt: HostRuntime) -> Result<(), Fail> {
    let text =
        "module c_main(\n  input wire clk,\n  input wire i_A,\n  input wire [7:0] i_D,\n  input wire i_W,\n  output wire [7:0] o_Y\n);\n  wire x0_0;\n  wire [7:0] x0_1;\n  wire x0_2;\n  wire [7:0] w0_0;\n  reg [7:0] m0 [0:1];\n  integer k;\n  initial begin\n    for (k = 0; k < 2; k = k + 1) m0[k] = 8'd0;\n  end\n  assign x0_0 = i_A;\n  assign x0_1 = i_D;\n  assign x0_2 = i_W;\n  assign w0_0 = m0[x0_0];\n  assign o_Y = w0_0;\n  always @(posedge clk) begin\n    if (x0_2) m0[x0_0] <= x0_1;\n  end\nendmodule\n";
    assert_eq!(rt; printed(rt.alloc(), text)?.as_slice(), text.as_bytes());
    Ok(())
}

#[test]
fn other_forms_are_printed_as_they_were_read(rt: HostRuntime) -> Result<(), Fail> {
    let text =
        "module c_main(\n);\n  reg [7:0] r0 = 8'd0;\n  integer k;\n  initial begin\n    m0[1] = 8'd5;\n  end\n  assign w0_0 = 8'd256;\n  assign w0_1 = i_B[3];\n  assign w0_2 = i_B[7:4];\n  assign w0_3 = {i_A, i_B, i_C};\n  assign o_Y = (i_A ? ((~i_A) >> i_B) : (i_C << i_B));\n  always @(negedge clk) begin\n    r0 <= (i_B == i_C);\n  end\nendmodule\n";
    assert_eq!(rt; printed(rt.alloc(), text)?.as_slice(), text.as_bytes());
    Ok(())
}

#[test]
fn white_space_may_stand_between_tokens(rt: HostRuntime) -> Result<(), Fail> {
    let text = " module\tc_main (\r\n) ;assign\no_Y=( ~i_A\t) ;endmodule";
    let want = "module c_main(\n);\n  assign o_Y = (~i_A);\nendmodule\n";
    assert_eq!(rt; printed(rt.alloc(), text)?.as_slice(), want.as_bytes());
    Ok(())
}

#[test]
fn module_ends_at_its_last_word(rt: HostRuntime) -> Result<(), Fail> {
    for (text, want) in [
        ("module c_main();endmodule", true),
        ("module c_main();", false),
        ("module c_main();endmodule;", false),
        ("\u{feff}module c_main();endmodule", false),
    ] {
        assert_eq!(rt; is_read(rt.alloc(), text.as_bytes())?, want, "{text}");
    }
    Ok(())
}

#[test]
fn tokens_are_kept_apart(rt: HostRuntime) -> Result<(), Fail> {
    for (decl, want) in [
        ("wire x0;", true),
        ("wirex0;", false),
        ("wire // a\nx0;", false),
        ("reg x0=8 'd5;", false),
        ("wire k;", false),
        ("assign o_Y=(i_A< <i_B);", false),
        ("assign o_Y={i_A};", false),
        ("assign o_Y=((i_A&i_B));", false),
    ] {
        assert_eq!(rt; declares(rt.alloc(), decl)?, want, "{decl}");
    }
    Ok(())
}

#[test]
fn numbers_are_those_of_the_subset(rt: HostRuntime) -> Result<(), Fail> {
    for (decl, want) in [
        ("reg x0 [0:1];", true),
        ("reg x0 [0:01];", false),
        ("wire [0:0] x0;", false),
        ("reg x0=8'd256;", true),
    ] {
        assert_eq!(rt; declares(rt.alloc(), decl)?, want, "{decl}");
    }
    Ok(())
}

#[test]
fn limits_are_kept(rt: HostRuntime) -> Result<(), Fail> {
    let alloc = rt.alloc();
    let greatest = "reg x0=1'd340282366920938463463374607431768211455;";
    assert!(rt; declares(alloc, greatest)?);
    let past = "reg x0=1'd340282366920938463463374607431768211456;";
    assert!(rt; !declares(alloc, past)?);
    assert!(rt; reads_depth(alloc, 100)?);
    assert!(rt; !reads_depth(alloc, 101)?);
    assert!(rt; reads_name(alloc, 300)?);
    assert!(rt; !reads_name(alloc, 301)?);
    Ok(())
}

#[test]
fn the_length_is_bounded(rt: HostRuntime) -> Result<(), Fail> {
    let module = "module c_main();endmodule";
    let mut text = vec![in rt.alloc(); b' '; GREATEST_LENGTH - 25]?;
    text.extend_from_slice(module.as_bytes())?;
    assert_eq!(rt; text.len(), GREATEST_LENGTH);
    assert!(rt; is_read(rt.alloc(), text.as_slice())?);
    text.push(b' ')?;
    assert!(rt; !is_read(rt.alloc(), text.as_slice())?);
    Ok(())
}
