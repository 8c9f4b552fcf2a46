ghost use Rattle.std.specs.Prelude.{◌≡◌, ◌<◌, ◌^◌, length};

use crate::blocks::Block;
use crate::bytes::{Bytes, FEW, shared};
use coll_sched::Region;
use std::alloc::Global;
use std::sync::Arc;

/// Memory for a block's count of owners, taken before the block has its bytes. So bytes that are
/// put together later can have several owners without taking memory then.
#[derive(Debug, Drop)]
pub struct Shell {
    block: Option<Arc<Block>>,
}

impl Shell {
    /// Takes memory for a count. Without memory the shell is empty.
    pub fn new(alloc: Global) -> Shell {
        Shell {
            block: Arc::new(alloc, Block::new(Vec::new(alloc), None)).ok(),
        }
    }

    /// Returns an empty shell, which takes no memory.
    pub fn none() -> Shell {
        Shell { block: None }
    }

    /// Takes the bytes of a vector, as `Bytes::from_vec` does. Their block counts its owners,
    /// unless the shell is empty.
    pub fn fill(self, bytes: Vec<u8>) -> Bytes
        requires { length bytes.items < 2 ^ 32 }
        ensures { result ≡ bytes.items }
    {
        if bytes.len() <= FEW {
            return Bytes::from_vec(bytes);
        }
        let Some(mut block) = self.block else {
            return Bytes::from_vec(bytes);
        };
        let place = Region::front(bytes.len() as u32);
        match Arc::get_mut(&mut block) {
            Some(room) => room.bytes = bytes,
            None => return Bytes::from_vec(bytes),
        }
        shared(block, place)
    }
}
