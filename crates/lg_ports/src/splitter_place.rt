//! Where the ends of a splitter stand.

ghost use Rattle.std.specs.Prelude.{pos, neg_ℤ, ◌*◌, ◌≡◌, ◌≤◌, ◌≤ℤ◌};
ghost use Rattle.lg_ports.specs.Given.{seen_given};
ghost use Rattle.lg_ports.specs.SplitterEnds.{end_place, start_east, start_west, start_north, start_south, is_centred, gap};

use crate::given::Given;

// Where end `i` stands.
pub fn end_place(given: &Given, i: u32) -> (i32, i32)
    requires { i ≤ 99 }
    ensures { result ≡ end_place (seen_given given.now) i }
{
    let step = times(gap(given), i);
    if given.is("facing", "west") {
        (-20, start_west(given) + step)
    } else if given.is("facing", "north") {
        (start_north(given) - step, -20)
    } else if given.is("facing", "south") {
        (start_south(given) - step, 20)
    } else {
        (20, start_east(given) + step)
    }
}

fn start_east(given: &Given) -> i32
    ensures start { result ≡ start_east (seen_given given.now) }
    ensures low { neg_ℤ (pos 100000) ≤ℤ result }
    ensures high { result ≤ℤ pos 100000 }
{
    if is_centred(given) {
        -times(gap(given), given.number("fanout") / 2)
    } else if given.is("appear", "right") {
        gap(given) as i32
    } else {
        -times(gap(given), given.number("fanout"))
    }
}

fn start_west(given: &Given) -> i32
    ensures start { result ≡ start_west (seen_given given.now) }
    ensures low { neg_ℤ (pos 100000) ≤ℤ result }
    ensures high { result ≤ℤ pos 100000 }
{
    if is_centred(given) {
        -times(gap(given), given.number("fanout") / 2)
    } else if given.is("appear", "right") {
        -times(gap(given), given.number("fanout"))
    } else {
        gap(given) as i32
    }
}

fn start_north(given: &Given) -> i32
    ensures start { result ≡ start_north (seen_given given.now) }
    ensures low { neg_ℤ (pos 100000) ≤ℤ result }
    ensures high { result ≤ℤ pos 100000 }
{
    if is_centred(given) {
        times(gap(given), (given.number("fanout") + 1) / 2) - gap(given) as i32
    } else if given.is("appear", "right") {
        times(gap(given), given.number("fanout"))
    } else {
        -(gap(given) as i32)
    }
}

fn start_south(given: &Given) -> i32
    ensures start { result ≡ start_south (seen_given given.now) }
    ensures low { neg_ℤ (pos 100000) ≤ℤ result }
    ensures high { result ≤ℤ pos 100000 }
{
    if is_centred(given) {
        times(gap(given), (given.number("fanout") + 1) / 2) - gap(given) as i32
    } else if given.is("appear", "right") {
        -(gap(given) as i32)
    } else {
        times(gap(given), given.number("fanout"))
    }
}

fn is_centred(given: &Given) -> bool
    ensures { result ≡ is_centred (seen_given given.now) }
{
    given.is("appear", "center") || given.is("appear", "legacy")
}

// How far ends are apart.
fn gap(given: &Given) -> u32
    ensures gap { result ≡ gap (seen_given given.now) }
    ensures small { result ≤ 990 }
{
    10 * given.number("spacing")
}

fn times(gap: u32, n: u32) -> i32
    requires gap { gap ≤ 990 }
    requires n { n ≤ 99 }
    ensures product { result ≡ pos (gap * n) }
    ensures high { result ≤ℤ pos 100000 }
    ensures low { pos 0 ≤ℤ result }
{
    (gap * n) as i32
}
