//! The laws of draws.

ghost use Rattle.std.specs.Prelude.{◌≡◌, ℕ, ◌+◌, ◌<◌, ◌≤◌, ◌∷◌, []};
ghost use mathlib.Core.Option.{some};
ghost use lib.ListN.{get_elem?};
ghost use Rattle.lg_workers.specs.declared.view.Deal.{Deal as Dealt};
ghost use Rattle.lg_workers.specs.declared.view.SeatView.{SeatView as View};
ghost use Rattle.lg_workers.specs.Draws.{Table, times, beyond, IsDeal, DrawRule, IsStep, IsReached};

/// A law: each draw, split and join keeps the rule of draws, and so it holds of every table that they lead to.
pub fn reached_tables_keep_the_rule()
    ensures step { (deal : Dealt) (s t : Table) → DrawRule deal s → IsStep s t → DrawRule deal t }
    ensures reached { (deal : Dealt) (s : Table) → IsDeal deal → IsReached deal s → DrawRule deal s }
{}

/// A law: where a seat has all shares and a number from the jobs on, each number below the jobs stands in its list exactly once.
pub fn whole_lists_hold_each_job_once()
    ensures { (deal : Dealt) (s : Table) (seat : ℕ) (v : View) → DrawRule deal s → get_elem? s.views seat ≡ some v
        → v.shares ≡ deal.seats → 0 < beyond deal.jobs v.drawn → (n : ℕ) → n < deal.jobs → times n v.drawn ≡ 1 }
{}

/// A law: the counter runs past the jobs by no more than the seats.
pub fn counters_stay_small()
    ensures { (deal : Dealt) (s : Table) (counter : ℕ) → DrawRule deal s → s.words ≡ counter ∷ [] → counter ≤ deal.jobs + deal.seats }
{}
