//! Moves of nodes, and the lists after them.

ghost use Rattle.std.specs.Prelude.{◌≡◌, length};
ghost use Rattle.coll_lists.specs.Layouts.{size};

use coll_lists::Links;

/// A list, its first and its last node, and its number of nodes.
type ListShape = (u32, Option<u32>, Option<u32>, u32);

/// A node, the next one, the one before it, and its list.
type Node = (u32, Option<u32>, Option<u32>, u32);

/// List 0 is 1, 3; list 1 is 4, 0, 2; list 2 is empty.
const LISTS: &[ListShape] = &[
    (0, Some(1), Some(3), 2),
    (1, Some(4), Some(2), 3),
    (2, None, None, 0),
];

const NODES: &[Node] = &[
    (0, Some(2), Some(4), 1),
    (1, Some(3), None, 0),
    (2, None, Some(0), 1),
    (3, None, Some(1), 0),
    (4, Some(0), None, 1),
];

/// Whether each of three lists is as it must be.
fn are_lists(links: &Links, lists: &[ListShape]) -> bool
    requires { length links.now ≡ 3 }
{
    for (list, first, last, len) in lists {
        if *list >= 3 {
            return false;
        }
        let is_first = links.first(*list) == *first;
        let is_last = links.last(*list) == *last;
        if !is_first || !is_last || links.len(*list) != *len {
            return false;
        }
    }
    true
}

/// Whether each of five nodes is where it must be.
fn are_nodes(links: &Links, nodes: &[Node]) -> bool
    requires { size links.now ≡ 5 }
{
    for (node, next, before, list) in nodes {
        if *node >= 5 {
            return false;
        }
        let is_next = links.next(*node) == *next;
        let is_before = links.prev(*node) == *before;
        if !is_next || !is_before || links.list_of(*node) != *list {
            return false;
        }
    }
    true
}

#[test]
fn moves_of_five(rt: HostRuntime) {
    let made = Links::new(rt.alloc(), 5, 3);
    let mut links = made.expect(&rt, "memory is ample");
    links.move_back(2, 1);
    links.move_back(0, 1);
    links.move_front(4, 1);
    links.move_back(2, 1);
    assert!(rt; are_lists(&links, LISTS));
    assert!(rt; are_nodes(&links, NODES));
}
