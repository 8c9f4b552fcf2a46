use std::alloc::{AllocError, Global};

/// Lines that stand in place of one line of a text.
#[derive(Debug, Drop)]
pub struct Patch {
    /// The line of the text, from 1 on.
    pub line: u32,
    /// The lines in its place, with line feeds between them.
    pub block: Vec<u8>,
}

impl Patch {
    /// A copy of the patch.
    pub fn copied(&self, alloc: Global) -> Result<Patch, AllocError> {
        Ok(Patch {
            line: self.line,
            block: Vec::from_slice(alloc, &self.block)?,
        })
    }
}

/// A copy of the patches.
pub(crate) fn copied(alloc: Global, patches: &[Patch]) -> Result<Vec<Patch>, AllocError> {
    let mut copies = Vec::new(alloc);
    for patch in patches {
        copies.push(patch.copied(alloc)?)?;
    }
    Ok(copies)
}
