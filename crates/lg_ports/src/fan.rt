//! Where the lines of a plexer stand.

ghost use Rattle.std.specs.Prelude.{◌≡◌, ◌+◌, ◌≤◌, pos};
ghost use Rattle.lg_ports.specs.Places.{fan_start, fan_y, fan_reach, below_fan};

// Where line `k` of a plexer stands, above or below its middle.
pub fn fan_y(lines: u32, k: u32) -> i32
    requires lines { lines ≤ 32 }
    requires k { k ≤ 99 }
    ensures { result ≡ fan_y lines k }
{
    let step = if lines == 2 { 20 } else { 10 };
    (step * k) as i32 - fan_start(lines) as i32
}

fn fan_start(lines: u32) -> u32
    requires { lines ≤ 32 }
    ensures start { result ≡ fan_start lines }
    ensures small { result ≤ 160 }
{
    if lines == 2 { 10 } else { 5 * lines }
}

// How long a multiplexer is.
pub fn fan_reach(lines: u32) -> i32
    ensures { result ≡ pos (fan_reach lines) }
{
    match lines {
        2 => 30,
        4 => 40,
        _ => 50,
    }
}

// How far below its middle a plexer has its controls.
pub fn below_fan(lines: u32) -> i32
    requires { lines ≤ 32 }
    ensures { result ≡ pos (below_fan lines) }
{
    (5 * lines + 10) as i32
}
