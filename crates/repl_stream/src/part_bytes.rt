//! A place for the bytes of a part.

ghost use Rattle.std.specs.Prelude.{◌≡◌, ◌≤◌, length, take, IfOk};
ghost use Rattle.repl_stream.specs.Texts.{max_part};

use crate::parts::MAX_PART;
use byte_text::NoMemory;
use std::alloc::Global;

/// A place for the bytes of a part, and how many of them stand there.
#[derive(Drop)]
pub struct PartBytes {
    pub block: Vec<u8>,
    pub len: usize,
    ghost whole: { length block.items ≡ max_part },
    ghost within: { len ≤ max_part },
}

impl PartBytes {
    /// A place where no bytes stand.
    pub fn new(alloc: Global) -> Result<PartBytes, NoMemory>
        ensures { IfOk result (λ p. p.len ≡ 0) }
    {
        let Ok(block) = vec![in alloc; 0u8; MAX_PART] else {
            return Err(NoMemory);
        };
        Ok(PartBytes { block, len: 0 })
    }

    /// The bytes that stand there.
    pub fn bytes(&self) -> &[u8]
        ensures bytes { result.now ≡ take self.now.len self.now.block.items }
        ensures short { length result.now ≤ max_part }
    {
        &self.block[..self.len]
    }
}
