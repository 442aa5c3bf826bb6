//! Classes of numbers that links chain together.

ghost use Rattle.std.specs.Prelude.{◌≡◌, ℕ, ◌<◌, ◌≤◌, ◌^◌, length, IfOk, slice_index, vec_len};
ghost use Rattle.std.specs.List.{All};
ghost use Rattle.lg_nets.specs.Links.{AreClasses};
ghost use Rattle.lg_nets.specs.Forest.{PointDown, Represents, merged};

use std::alloc::{AllocError, Global};

/// Two numbers that belong together.
#[derive(Clone, Copy, Debug, PartialEq, Eq)]
pub struct Link {
    /// One of them.
    pub from: usize,
    /// The other.
    pub to: usize,
}

/// For each number below `count` the least number that links chain it to.
pub fn components(alloc: Global, count: usize, links: &[Link]) -> Result<Vec<u32>, AllocError>
    requires few { count < 2 ^ 32 }
    requires within { All (λ link. (link.from < count) × (link.to < count)) links.now }
    ensures { IfOk result (λ labels. AreClasses links.now count labels.items) }
{
    let mut parents = alone(alloc, count)?;
    for link in links {
        join(&mut parents, *link);
    }
    let mut labels = Vec::with_capacity(alloc, count)?;
    for number in 0..count {
        labels.push(find(&mut parents, number) as u32)?;
    }
    Ok(labels)
}

fn alone(alloc: Global, count: usize) -> Result<Vec<usize>, AllocError>
    ensures len { IfOk result (λ parents. vec_len parents ≡ count) }
    ensures own { IfOk result (λ parents. (k : ℕ) → k < count → slice_index parents.items k ≡ k) }
{
    let mut parents = Vec::with_capacity(alloc, count)?;
    for number in 0..count {
        parents.push(number)?;
    }
    Ok(parents)
}

fn join(parents: &mut [usize], link: Link)
    requires down { PointDown parents.old }
    requires from_within { link.from < length parents.old }
    requires to_within { link.to < length parents.old }
    ensures down { PointDown parents.new }
    ensures merges { (rep : ℕ → ℕ) → Represents rep parents.old → Represents (merged rep link.from link.to) parents.new }
{
    let from = find(parents, link.from);
    let to = find(parents, link.to);
    if from < to {
        parents[to] = from;
    } else {
        parents[from] = to;
    }
}

fn find(parents: &mut [usize], number: usize) -> usize
    requires down { PointDown parents.old }
    requires within { number < length parents.old }
    ensures down { PointDown parents.new }
    ensures low { result ≤ number }
    ensures root { slice_index parents.new result ≡ result }
    ensures keeps { (rep : ℕ → ℕ) → Represents rep parents.old → Represents rep parents.new }
    ensures value { (rep : ℕ → ℕ) → Represents rep parents.old → result ≡ rep number }
{
    let mut at = number;
    while parents[at] != at {
        let up = parents[parents[at]];
        parents[at] = up;
        at = up;
    }
    at
}
