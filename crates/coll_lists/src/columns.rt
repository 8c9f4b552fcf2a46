ghost use Rattle.std.specs.Prelude.{◌≡◌, ℕ, ◌+◌, ◌-◌, ◌^◌, ◌<◌, IfOk, length, replicate, slice_index, slice_set};
ghost use Rattle.coll_lists.specs.Columns.{len_entered, node_at, opening_next, opening_prev};

use std::alloc::{AllocError, Global};

/// The links of nodes and heads, each node's list and each list's length, by index.
///
/// The nodes come first. Behind them stands one head for each list, which is linked before the list's first
/// node and after its last one, so that unlinking and linking know no special case.
#[derive(Debug, Drop)]
pub struct Columns {
    pub(crate) next: Vec<u32>,
    pub(crate) prev: Vec<u32>,
    pub(crate) list: Vec<u32>,
    pub(crate) len: Vec<u32>,
}

impl Columns {
    /// All nodes on list 0, in rising order.
    pub(crate) fn new(alloc: Global, nodes: u32, lists: u32) -> Result<Columns, AllocError>
        requires some { 0 < lists }
        requires room { nodes + lists < 2 ^ 32 }
        ensures next_len { IfOk result (λ columns. length columns.next.items ≡ nodes + lists) }
        ensures next { IfOk result (λ columns. (at : ℕ) → at < nodes + lists → slice_index columns.next.items at ≡ opening_next nodes at) }
        ensures prev_len { IfOk result (λ columns. length columns.prev.items ≡ nodes + lists) }
        ensures prev { IfOk result (λ columns. (at : ℕ) → at < nodes + lists → slice_index columns.prev.items at ≡ opening_prev nodes at) }
        ensures list { IfOk result (λ columns. columns.list.items ≡ replicate nodes 0) }
        ensures len { IfOk result (λ columns. columns.len.items ≡ slice_set (replicate lists 0) 0 nodes) }
    {
        let mut next = Vec::with_capacity(alloc, (nodes + lists) as usize)?;
        let mut prev = Vec::with_capacity(alloc, (nodes + lists) as usize)?;
        for at in 0..nodes + lists {
            next.push(if at < nodes {
                at + 1
            } else if at == nodes {
                0
            } else {
                at
            })?;
            prev.push(if at == 0 {
                nodes
            } else if at > nodes {
                at
            } else {
                at - 1
            })?;
        }
        let list = vec![in alloc; 0; nodes as usize]?;
        let mut len = vec![in alloc; 0; lists as usize]?;
        len[0] = nodes;
        Ok(Columns {
            next,
            prev,
            list,
            len,
        })
    }

    /// Notes that a node has gone to another list.
    pub(crate) fn enter(&mut self, node: u32, list: u32)
        requires node_in { node < length self.old.list.items }
        requires from_in { slice_index self.old.list.items node < length self.old.len.items }
        requires list_in { list < length self.old.len.items }
        requires some { 0 < slice_index self.old.len.items (slice_index self.old.list.items node) }
        requires room { slice_index
            (slice_set self.old.len.items (slice_index self.old.list.items node) (slice_index self.old.len.items (slice_index self.old.list.items node) - 1))
            list + 1 < 2 ^ 32 }
        ensures next { self.new.next.items ≡ self.old.next.items }
        ensures prev { self.new.prev.items ≡ self.old.prev.items }
        ensures list { self.new.list.items ≡ slice_set self.old.list.items node list }
        ensures len { self.new.len.items ≡ len_entered self.old.len.items (slice_index self.old.list.items node) list }
    {
        let from = self.list[node as usize];
        self.len[from as usize] -= 1;
        self.len[list as usize] += 1;
        self.list[node as usize] = list;
    }

    /// The head of a list.
    pub(crate) fn head(&self, list: u32) -> u32
        requires { length self.now.list.items + list < 2 ^ 32 }
        ensures { result ≡ length self.now.list.items + list }
    {
        self.list.len() as u32 + list
    }

    /// An index as a node; None where it is a head's.
    pub(crate) fn node_at(&self, at: u32) -> Option<u32>
        ensures { result ≡ node_at (length self.now.list.items) at }
    {
        if (at as usize) < self.list.len() {
            Some(at)
        } else {
            None
        }
    }
}
