//! Claims on the numbers of jobs, drawn from one counter.

ghost use Rattle.std.specs.Prelude.{◌≡◌, ◌<◌, ◌≤◌, [], nat_lt};
ghost use Rattle.lg_workers.specs.Draws.{beyond, IsDeal, IsWhole};

use crate::Memory;
use crate::rule::{Draw, Draws, Look, Share};
use crate::view::{Deal, SeatView};
use atomic_table::{Seat, Table};
use std::alloc::Global;

/// The numbers of jobs, from 0 up, each of which one claim draws. Threads share it by reference.
#[derive(Drop)]
pub struct Claims {
    table: Table<(), SeatView, Deal, Draws, Global>,
    deal: Deal,
    ghost one_word: { table.shared.table_id.words ≡ 1 },
    ghost same_deal: { table.shared.key ≡ deal },
    pub ghost in_range: { IsDeal deal },
}

/// The right to draw. Contracts see its list of drawn numbers, its shares, and whether it is spent.
#[derive(Drop)]
pub struct Claim {
    seat: Seat<(), SeatView>,
    spent: bool,
    ghost no_slot: { seat.me.1 ≡ [] },
    pub ghost some_share: { 0 < seat.me.0.shares },
    pub ghost within: { seat.me.0.shares ≤ seat.me.0.seats },
    pub ghost ended: { spent ≡ nat_lt 0 (beyond seat.me.0.jobs seat.me.0.drawn) },
    pub ghost once: { IsWhole seat.me.0 },
}

impl Claims {
    ghost use Rattle.std.specs.Prelude.{◌≡◌, ◌≢◌, ℕ, ◌+◌, ◌-◌, ◌<◌, ◌≤◌, ◌||◌, [], ◌∷◌, ◌++◌, true, false, IfOk, IfSome, IfNone, IsTrue, IsFalse};
    ghost use Rattle.std.specs.List.{All};
    ghost use Rattle.lg_workers.specs.Draws.{beyond};
    ghost use Rattle.lg_workers.specs.declared.view.TheConstants.{MOST_JOBS, MOST_SEATS};
    ghost use Rattle.lg_workers.specs.Claims.{drawn_by, shares_of, is_spent, jobs_of, seats_of, IsOf};

    /// Claims on that many jobs, and the one claim that holds all shares. `Memory`: there was none.
    pub fn new(alloc: Global, jobs: u32, seats: u32) -> Result<(Claims, Claim), Memory>
        requires jobs { jobs ≤ MOST_JOBS }
        requires seats { (0 < seats) × (seats ≤ MOST_SEATS) }
        ensures claims { IfOk result (λ made. (jobs_of made.0 ≡ jobs) × (seats_of made.0 ≡ seats)) }
        ensures claim { IfOk result (λ made. IsOf made.0 made.1 × (shares_of made.1 ≡ seats) × (drawn_by made.1 ≡ []) × (is_spent made.1 ≡ false)) }
    {
        let deal = Deal { jobs, seats };
        let (table, seat) = Table::of_words(alloc, &[0], &deal)?;
        let claims = Claims { table, deal };
        let claim = Claim { seat, spent: false };
        Ok((claims, claim))
    }

    /// Draws the next number, by one atomic step. `None`: that number is not below the jobs, or the claim was spent before, and then there is no step.
    pub fn draw(&self, claim: &mut Claim) -> Option<u32>
        requires { IsOf self.now claim.old }
        ensures of { IsOf self.now claim.new × (shares_of claim.new ≡ shares_of claim.old) }
        ensures some { IfSome result (λ n. (n < jobs_of self.now) × (drawn_by claim.new ≡ drawn_by claim.old ++ n ∷ []) × (is_spent claim.old ≡ false) × (is_spent claim.new ≡ false)) }
        ensures rises { IfSome result (λ n. All (λ m. m < n) (drawn_by claim.old)) }
        ensures none { IfNone result (is_spent claim.new ≡ true) }
        ensures last { IfNone result (is_spent claim.old ≡ false → (n : ℕ) × (jobs_of self.now ≤ n) × (drawn_by claim.new ≡ drawn_by claim.old ++ n ∷ [])) }
        ensures no_step { is_spent claim.old ≡ true → claim.new ≡ claim.old }
    {
        if claim.spent {
            return None;
        }
        let number = self.table.shared.fetch_add::<Draw>(&mut claim.seat, 0, 1);
        if number < u64::from(self.deal.jobs) {
            return Some(number as u32);
        }
        claim.spent = true;
        None
    }

    /// A new claim, to which one share of this one moves.
    pub fn split(&self, claim: &mut Claim) -> Claim
        requires of { IsOf self.now claim.old }
        requires left { (1 < shares_of claim.old) × (beyond (jobs_of self.now) (drawn_by claim.old) < shares_of claim.old) }
        ensures old { IsOf self.now claim.new × (shares_of claim.new ≡ shares_of claim.old - 1) × (drawn_by claim.new ≡ drawn_by claim.old) × (is_spent claim.new ≡ is_spent claim.old) }
        ensures new { IsOf self.now result × (shares_of result ≡ 1) × (drawn_by result ≡ []) × (is_spent result ≡ false) }
    {
        let seat = self.table.shared.split_seat::<Share>(&mut claim.seat);
        Claim { seat, spent: false }
    }

    /// Brings the list and the shares of another claim into this one.
    pub fn join(&self, claim: &mut Claim, other: Claim)
        requires of { IsOf self.now claim.old × IsOf self.now other }
        ensures of { IsOf self.now claim.new }
        ensures list { drawn_by claim.new ≡ drawn_by claim.old ++ drawn_by other }
        ensures shares { shares_of claim.new ≡ shares_of claim.old + shares_of other }
        ensures spent { is_spent claim.new ≡ (is_spent claim.old || is_spent other) }
    {
        let Claim { seat, spent } = other;
        self.table.shared.join_seat::<Share>(&mut claim.seat, seat);
        claim.spent = claim.spent || spent;
        // A join of seats tells nothing of the other seats: by this look the claim knows that it is whole.
        self.table.shared.load::<Look>(&mut claim.seat, 0);
    }
}
