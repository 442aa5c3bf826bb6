//! The rule of the table of claims, and its steps.

ghost use Rattle.lg_workers.specs.Draws.{DrawRule, first_view, one_less, newcomer, both_views, no_view, Drew, Looked};

use crate::view::{Deal, SeatView};
use atomic_table::{Join, Play, Split, TableRule};

/// The rule of draws, which holds between any two steps.
pub struct Draws;

impl TableRule<(), SeatView, Deal> for Draws {
    ghost holds = { DrawRule };

    ghost first = { first_view };
}

/// A draw.
pub struct Draw;

impl Play<(), SeatView> for Draw {
    ghost then = { Drew };
}

/// A look at the counter, which changes nothing.
pub struct Look;

impl Play<(), SeatView> for Look {
    ghost then = { Looked };
}

/// One share moves to a new seat, and comes back with the list of its seat.
pub struct Share;

impl Split<SeatView> for Share {
    ghost left = { one_less };

    ghost right = { newcomer };
}

impl Join<SeatView> for Share {
    ghost both = { both_views };

    ghost spent = { no_view };
}
