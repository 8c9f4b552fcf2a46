ghost use Rattle.std.specs.Prelude.{◌≡◌, ◌==◌, ◌<◌, ◌∷◌, [], length, slice_index, IsTrue, IfOk};
ghost use Rattle.std.specs.List.{range_with_len};

use std::alloc::{AllocError, Global};
use std::marker::Model;

/// The requests that a command names, by their numbers.
#[derive(Debug, Drop)]
pub struct Named {
    which: Which,
}

#[derive(Debug, Drop)]
enum Which {
    /// One request, which most commands name: it takes no memory of its own.
    One(u32),
    These(Vec<u32>),
    /// The first requests of the section, this number of them: all that a `waitall` without words can see.
    First(u32),
}

impl Model for Named {
    ghost use Rattle.std.specs.Prelude.{ℕ, List};

    ghost Value = { List ℕ };

    ghost use Rattle.coll_parser.specs.Naming.{numbers};

    ghost view = { λ n. numbers n.which };
}

impl Named {
    /// One request. Needs no memory.
    pub fn one(request: u32) -> Named
        ensures { result ≡ request ∷ [] }
    {
        Named {
            which: Which::One(request),
        }
    }

    /// These requests, in this order. Needs no memory.
    pub fn these(requests: Vec<u32>) -> Named
        ensures { result ≡ requests.items }
    {
        Named {
            which: Which::These(requests),
        }
    }

    /// The requests below `count`. Constant time, and needs no memory.
    pub fn first(count: u32) -> Named
        ensures { result ≡ range_with_len 0 count }
    {
        Named {
            which: Which::First(count),
        }
    }

    /// The number of requests.
    pub fn len(&self) -> usize
        ensures { result ≡ length self.now }
    {
        match &self.which {
            Which::One(_) => 1,
            Which::These(requests) => requests.len(),
            Which::First(count) => *count as usize,
        }
    }

    /// The request at that index.
    pub fn get(&self, index: usize) -> usize
        requires { index < length self.now }
        ensures { result ≡ slice_index self.now index }
    {
        match &self.which {
            Which::One(request) => *request as usize,
            Which::These(requests) => requests[index] as usize,
            Which::First(_) => index,
        }
    }

    /// Whether these are the first `count` requests, given by their number.
    pub(crate) fn is_first(&self, count: usize) -> bool
        ensures { IsTrue result → self.now ≡ range_with_len 0 count }
    {
        match &self.which {
            Which::One(_) => false,
            Which::These(_) => false,
            Which::First(first) => *first as usize == count,
        }
    }

    /// A copy of the requests. Linear in the requests that were given one by one.
    pub fn copied(&self, alloc: Global) -> Result<Named, AllocError>
        ensures { IfOk result (λ named. named ≡ self.now) }
    {
        match &self.which {
            Which::One(request) => Ok(Named::one(*request)),
            Which::These(requests) => Ok(Named::these(Vec::from_slice(alloc, requests)?)),
            Which::First(count) => Ok(Named::first(*count)),
        }
    }
}
