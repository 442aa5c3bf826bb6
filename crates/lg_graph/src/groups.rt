//! Groups of nodes on the path of a search.

ghost use Rattle.std.specs.Prelude.{◌≡◌, ◌<◌, List, length, OnOk, [], ◌∷◌, ◌++◌};
ghost use Rattle.lg_graph.specs.Search.{StartsAtZero, IsJoined};
ghost use Rattle.lg_graph.specs.declared.groups.Group.{Group as Stretch};

use sqlite_items::Items;
use std::alloc::AllocError;

/// Nodes that stand in one stretch of the path and lead to each other.
#[derive(Clone, Copy)]
pub struct Group {
    /// Where it begins on the path. It ends where the next one begins.
    pub first: usize,
    /// Where the open arrows of its nodes begin, and end where those of the next one begin.
    pub arrows: usize,
    /// Whether its nodes are known to be on a cycle.
    pub looped: bool,
}

pub fn last_of(groups: &Items<Group>) -> Group
    requires { 0 < length groups.now }
    ensures { (before : List Stretch) × (groups.now ≡ before ++ result ∷ []) }
{
    groups.as_slice()[groups.len() - 1]
}

// Makes one group of the one that holds a place of the path and of all after it, which is on a cycle.
pub fn join(groups: &mut Items<Group>, place: usize) -> Result<(), AllocError>
    requires { StartsAtZero groups.old }
    ensures { OnOk result (IsJoined place groups.old groups.new) }
{
    let Some(mut last) = groups.pop() else {
        return Ok(());
    };
    while last.first > place {
        match groups.pop() {
            Some(group) => last = group,
            None => break,
        }
    }
    last.looped = true;
    groups.push(last)
}
