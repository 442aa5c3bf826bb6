//! Where the inputs of a gate stand.

ghost use Rattle.std.specs.Prelude.{◌≡◌, ◌≤◌};
ghost use Rattle.lg_ports.specs.Places.{third_step, gate_start, gate_step, gate_gap, gate_y};

// Where input `k` of a gate stands, above or below its middle.
pub fn gate_y(inputs: u32, size: u32, k: u32) -> i32
    requires inputs { inputs ≤ 99 }
    requires k { k ≤ 99 }
    ensures { result ≡ gate_y inputs size k }
{
    let below = gate_step(inputs, size) * k + gate_gap(inputs, size, k);
    below as i32 - gate_start(inputs, size) as i32
}

// How far the first input of a gate stands above its middle.
fn gate_start(inputs: u32, size: u32) -> u32
    requires { inputs ≤ 99 }
    ensures start { result ≡ gate_start inputs size }
    ensures small { result ≤ 500 }
{
    if inputs == 2 {
        if size == 30 { 10 } else { 20 }
    } else if inputs == 3 {
        third_step(size)
    } else if inputs == 4 && size == 70 {
        30
    } else if inputs % 2 == 0 {
        5 * inputs
    } else {
        5 * (inputs - 1)
    }
}

// How far an input of a gate stands below the one before.
fn gate_step(inputs: u32, size: u32) -> u32
    ensures step { result ≡ gate_step inputs size }
    ensures small { result ≤ 40 }
{
    if inputs == 2 {
        if size == 30 { 20 } else { 40 }
    } else if inputs == 3 {
        third_step(size)
    } else if inputs == 4 && size == 70 {
        20
    } else {
        10
    }
}

// The gap in the middle of a gate, where the input stands below it.
fn gate_gap(inputs: u32, size: u32, k: u32) -> u32
    ensures gap { result ≡ gate_gap inputs size k }
    ensures small { result ≤ 10 }
{
    if inputs == 2 || (inputs == 4 && size == 70) {
        0
    } else if inputs % 2 == 0 && inputs / 2 <= k {
        10
    } else {
        0
    }
}

// How far the inputs of a gate with three inputs are apart.
fn third_step(size: u32) -> u32
    ensures step { result ≡ third_step size }
    ensures small { result ≤ 30 }
{
    match size {
        30 => 10,
        50 => 20,
        _ => 30,
    }
}
