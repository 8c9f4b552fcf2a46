ghost use Rattle.std.specs.Prelude.{◌≡◌, ℕ, ◌+◌, ◌-◌, ◌^◌, ◌<◌, List, [], ◌∷◌, IfOk, IfErr, length, replicate, reverse};
ghost use Rattle.std.specs.List.{range_with_len};
ghost use Rattle.coll_lists.specs.Layouts.{IsLawful, list_of, sequence, size};
ghost use Rattle.coll_lists.specs.Moves.{moved_back, moved_front};
ghost use Rattle.coll_lists.specs.Neighbours.{after_in, before_in, first_in, last_in};
ghost use Rattle.coll_lists.specs.Walks.{nodes_left};
ghost use Rattle.coll_lists.specs.WellLinked.{IsWellLinked};
ghost use Rattle.coll_lists.specs.declared.links.End as End;

use crate::columns::Columns;
use crate::nodes::Nodes;
use coll_kinds::Refusal;
use std::alloc::Global;
use std::marker::Model;

/// A fixed number of nodes, each of which stands on exactly one of a fixed number of lists. Nodes and lists are
/// numbered from 0.
///
/// Clauses see the layout: for each list the sequence of its nodes. Every call but `new` takes constant time and
/// no memory.
#[derive(Debug, Drop)]
pub struct Links {
    columns: Columns,
}

/// The end of a list that a node moves to.
#[derive(Clone, Copy)]
enum End {
    Front,
    Back,
}

impl Model for Links {
    ghost use Rattle.std.specs.Prelude.{List, ℕ, length};
    ghost use Rattle.coll_lists.specs.Columns.{Shows, walks};

    ghost Value = { List (List ℕ) };

    ghost view = { λ a. walks a.columns.next.items (length a.columns.list.items) a.columns.len.items };

    ghost invariant = { λ a. Shows a.columns.next.items a.columns.prev.items a.columns.list.items a.columns.len.items
        (walks a.columns.next.items (length a.columns.list.items) a.columns.len.items) };
}

impl Links {
    /// All nodes on list 0, in rising order. Only NoMemory is refused.
    pub fn new(alloc: Global, nodes: u32, lists: u32) -> Result<Links, Refusal>
        requires some { 0 < lists }
        requires room { nodes + lists < 2 ^ 32 }
        ensures made { IfOk result (λ links. links ≡ range_with_len 0 nodes ∷ replicate (lists - 1) []) }
        ensures refused { IfErr result (λ why. why ≡ Refusal.NoMemory) }
    {
        let columns = Columns::new(alloc, nodes, lists)?;
        Ok(Links { columns })
    }

    /// The first node of a list; None where it is empty.
    pub fn first(&self, list: u32) -> Option<u32>
        requires { list < length self.now }
        ensures { result ≡ first_in (sequence self.now list) }
    {
        let head = self.columns.head(list);
        self.columns.node_at(self.columns.next[head as usize])
    }

    /// The last node of a list; None where it is empty.
    pub fn last(&self, list: u32) -> Option<u32>
        requires { list < length self.now }
        ensures { result ≡ last_in (sequence self.now list) }
    {
        let head = self.columns.head(list);
        self.columns.node_at(self.columns.prev[head as usize])
    }

    /// The node after this one on its list; None where it is the last.
    pub fn next(&self, node: u32) -> Option<u32>
        requires { node < size self.now }
        ensures { result ≡ after_in node (sequence self.now (list_of self.now node)) }
    {
        self.columns.node_at(self.columns.next[node as usize])
    }

    /// The node before this one on its list; None where it is the first.
    pub fn prev(&self, node: u32) -> Option<u32>
        requires { node < size self.now }
        ensures { result ≡ before_in node (sequence self.now (list_of self.now node)) }
    {
        self.columns.node_at(self.columns.prev[node as usize])
    }

    /// The list that a node stands on.
    pub fn list_of(&self, node: u32) -> u32
        requires { node < size self.now }
        ensures { result ≡ list_of self.now node }
    {
        self.columns.list[node as usize]
    }

    /// How many nodes stand on a list.
    pub fn len(&self, list: u32) -> u32
        requires { list < length self.now }
        ensures { result ≡ length (sequence self.now list) }
    {
        self.columns.len[list as usize]
    }

    /// The nodes of a list, from its first to its last.
    pub fn nodes(&self, list: u32) -> Nodes<'_>
        requires { list < length self.now }
        ensures { nodes_left result ≡ sequence self.now list }
    {
        // Looking at the columns shows that each node stands on one list, which a walk rests on.
        let _columns = &self.columns;
        let at = self.first(list);
        Nodes {
            links: self,
            at,
            backwards: false,
        }
    }

    /// The nodes of a list, from its last to its first.
    pub fn nodes_back(&self, list: u32) -> Nodes<'_>
        requires { list < length self.now }
        ensures { nodes_left result ≡ reverse (sequence self.now list) }
    {
        // Looking at the columns shows that each node stands on one list, which a walk rests on.
        let _columns = &self.columns;
        let at = self.last(list);
        Nodes {
            links: self,
            at,
            backwards: true,
        }
    }

    /// Takes a node out of its list and puts it at the back of a list, which may be the same one.
    pub fn move_back(&mut self, node: u32, list: u32)
        requires node_in { node < size self.old }
        requires list_in { list < length self.old }
        ensures { self.new ≡ moved_back node list self.old }
    {
        self.move_to(node, list, End::Back);
    }

    /// Takes a node out of its list and puts it at the front of a list, which may be the same one.
    pub fn move_front(&mut self, node: u32, list: u32)
        requires node_in { node < size self.old }
        requires list_in { list < length self.old }
        ensures { self.new ≡ moved_front node list self.old }
    {
        self.move_to(node, list, End::Front);
    }

    /// Joins the neighbours of a node with each other, and then puts it between a list's head and the node there.
    fn move_to(&mut self, node: u32, list: u32, end: End)
        requires node_in { node < size self.old }
        requires list_in { list < length self.old }
        ensures back { end ≡ End.Back → self.new ≡ moved_back node list self.old }
        ensures front { end ≡ End.Front → self.new ≡ moved_front node list self.old }
    {
        let before = self.columns.prev[node as usize];
        let behind = self.columns.next[node as usize];
        self.columns.next[before as usize] = behind;
        self.columns.prev[behind as usize] = before;

        let head = self.columns.head(list);
        let left = match end {
            End::Front => head,
            End::Back => self.columns.prev[head as usize],
        };
        let right = self.columns.next[left as usize];
        self.columns.next[left as usize] = node;
        self.columns.next[node as usize] = right;
        self.columns.prev[node as usize] = left;
        self.columns.prev[right as usize] = node;
        self.columns.enter(node, list);
    }

    /// The columns that the readers read, with what holds of every layout.
    pub(crate) fn columns(&self) -> &Columns
        ensures lawful { IsLawful (size self.now) self.now }
        ensures well_linked { (list : ℕ) → list < length self.now → IsWellLinked result.now self.now list }
    {
        &self.columns
    }
}
