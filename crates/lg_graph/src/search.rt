//! The search through a graph, along one path.

ghost use Rattle.std.specs.Prelude.{◌≡◌, ◌+◌, ◌<◌, ◌≤◌, ℕ, [], ◌∷◌, ◌++◌, None, Some, length, slice_index, IfOk, OnOk};
ghost use Rattle.lg_graph.specs.Graph.{IsGraph, IsSorted};
ghost use Rattle.lg_graph.specs.Search.{IsNew, IsSearch, IsVisitable, IsClosable, IsClosed, IsFinished, place_of, node_at, KeepsMet, work};
ghost use Rattle.lg_graph.specs.declared.search.Place.TheVariants as place;

use crate::groups::{Group, join, last_of};
use crate::sorting::Sorted;
use sqlite_items::Items;
use std::alloc::{AllocError, Global};

/// What the search knows of a node.
#[derive(Clone, Copy)]
pub enum Place {
    /// It was not met.
    New,
    /// It stands on the path, here.
    OnPath(usize),
    /// It and all that it leads to are done; it stands in the order, here.
    Done(usize),
}

/// A search through a graph. The path is cut into groups of nodes that lead to each other, and from each group an arrow
/// leads to the next one; arrows of nodes on the path that were not followed yet are open.
#[derive(Drop)]
pub struct Search {
    /// What is known of each node.
    pub places: Items<Place>,
    /// The nodes that are being searched, each after one that leads to it.
    pub path: Items<usize>,
    /// The path cut into groups, each by its first node.
    pub groups: Items<Group>,
    /// The arrows of nodes on the path that were not followed yet, those of later groups last.
    pub arrows: Items<usize>,
    /// The nodes that are done, each after all that it leads to but those that lead back to it.
    pub order: Items<usize>,
    /// Whether each node that is done leads to itself.
    pub cyclic: Items<bool>,
}

impl Search {
    pub fn new(alloc: Global, nodes: usize) -> Result<Search, AllocError>
        ensures { IfOk result (IsNew nodes) }
    {
        Ok(Search {
            places: Items::from_vec(vec![in alloc; Place::New; nodes]?),
            path: Items::new(alloc),
            groups: Items::new(alloc),
            arrows: Items::new(alloc),
            order: Items::new(alloc),
            cyclic: Items::from_vec(vec![in alloc; false; nodes]?),
        })
    }

    // Does a node and all that it leads to.
    pub fn run(&mut self, graph: &[Items<usize>], node: usize) -> Result<(), AllocError>
        requires graph { IsGraph graph.now }
        requires search { IsSearch graph.now None self.old }
        requires ended { self.old.path ≡ [] }
        requires within { node < length graph.now }
        ensures search { OnOk result (IsSearch graph.now None self.new) }
        ensures ended { OnOk result (self.new.path ≡ []) }
        ensures met { OnOk result (place_of self.new node ≡ place.New → ⊥) }
        ensures keeps { OnOk result (KeepsMet self.old self.new) }
    {
        if let Place::New = self.places.as_slice()[node] {
            self.visit(graph, node)?;
        }
        while !self.path.as_slice().is_empty() {
            self.step(graph)?;
        }
        Ok(())
    }

    // Follows an arrow of the last group, or closes the group where it has none.
    fn step(&mut self, graph: &[Items<usize>]) -> Result<(), AllocError>
        requires graph { IsGraph graph.now }
        requires search { IsSearch graph.now None self.old }
        requires path { 0 < length self.old.path }
        ensures search { OnOk result (IsSearch graph.now None self.new) }
        ensures less { OnOk result (work graph.now self.new < work graph.now self.old) }
        ensures keeps { OnOk result (KeepsMet self.old self.new) }
    {
        if self.arrows.len() <= last_of(&self.groups).arrows {
            return self.close();
        }
        match self.arrows.pop() {
            Some(to) => self.follow(graph, to),
            None => Ok(()),
        }
    }

    fn follow(&mut self, graph: &[Items<usize>], to: usize) -> Result<(), AllocError>
        requires graph { IsGraph graph.now }
        requires search { IsSearch graph.now (Some to) self.old }
        ensures search { OnOk result (IsSearch graph.now None self.new) }
        ensures less { OnOk result (work graph.now self.new ≤ work graph.now self.old) }
        ensures keeps { OnOk result (KeepsMet self.old self.new) }
    {
        match self.places.as_slice()[to] {
            Place::New => self.visit(graph, to),
            Place::OnPath(place) => join(&mut self.groups, place),
            Place::Done(_) => Ok(()),
        }
    }

    // Puts a new node on the path, as a group of its own.
    fn visit(&mut self, graph: &[Items<usize>], node: usize) -> Result<(), AllocError>
        requires { IsVisitable graph.now node self.old }
        ensures search { OnOk result (IsSearch graph.now None self.new) }
        ensures less { OnOk result (work graph.now self.new < work graph.now self.old) }
        ensures keeps { OnOk result (KeepsMet self.old self.new) }
        ensures met { OnOk result (place_of self.new node ≡ place.New → ⊥) }
    {
        self.groups.push(Group {
            first: self.path.len(),
            arrows: self.arrows.len(),
            looped: false,
        })?;
        self.places.set(node, Place::OnPath(self.path.len()));
        self.path.push(node)?;
        put_all(&mut self.arrows, graph[node].as_slice())
    }

    // Moves the last group, whose arrows were all followed, into the order.
    fn close(&mut self) -> Result<(), AllocError>
        requires { IsClosable self.old }
        ensures { OnOk result (IsClosed self.old self.new) }
    {
        match self.groups.pop() {
            Some(group) => self.finish(group.first, group.looped),
            None => Ok(()),
        }
    }

    // Moves the nodes of the path from a place on into the order.
    fn finish(&mut self, first: usize, looped: bool) -> Result<(), AllocError>
        requires within { first ≤ length self.old.path }
        requires on_path { (a : ℕ) → a < length self.old.path
            → place_of self.old (node_at self.old a) ≡ place.OnPath a }
        requires marks { length self.old.cyclic ≡ length self.old.places }
        ensures { OnOk result (IsFinished first looped self.old self.new) }
    {
        while self.path.len() > first {
            match self.path.pop() {
                Some(node) => {
                    self.places.set(node, Place::Done(self.order.len()));
                    self.cyclic.set(node, looped);
                    self.order.push(node)?;
                }
                None => break,
            }
        }
        Ok(())
    }

    // The order and the marks, where all nodes are done.
    pub fn into_sorted(self) -> Sorted
        ensures order { result.order ≡ self.order }
        ensures cyclic { result.cyclic ≡ self.cyclic }
    {
        let Search { order, cyclic, .. } = self;
        Sorted { order, cyclic }
    }
}

fn put_all(items: &mut Items<usize>, more: &[usize]) -> Result<(), AllocError>
    ensures { OnOk result (items.new ≡ items.old ++ more.now) }
{
    for item in more {
        items.push(*item)?;
    }
    Ok(())
}
