//! What a table of claims is made for, and what a seat of it knows.

use std::collections::LinkedList;

/// The greatest number of jobs.
pub const MOST_JOBS: u32 = 1_000_000;

/// The greatest number of seats.
pub const MOST_SEATS: u32 = 64;

/// How many jobs are dealt out, and to how many seats.
#[derive(Clone, Copy, Debug)]
pub struct Deal {
    pub jobs: u32,
    pub seats: u32,
}

/// What a seat knows: the numbers that it drew, its shares, and the jobs and the seats of all. No value of it is made.
pub struct SeatView {
    pub drawn: LinkedList<u64>,
    pub shares: u64,
    pub jobs: u64,
    pub seats: u64,
}
