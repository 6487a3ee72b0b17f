//! Bytes without a pattern.
use crate::trouble::Trouble;
use std::alloc::Global;

/// So many bytes of a xorshift generator.
pub fn noise(alloc: Global, count: usize) -> Result<Vec<u8>, Trouble> {
    let mut bytes = vec![in alloc; 0u8; count]?;
    let mut state = 0x2545_F491_4F6C_DD1Du64;
    for byte in bytes.iter_mut() {
        state ^= state << 13;
        state ^= state >> 7;
        state ^= state << 17;
        *byte = (state % 256) as u8;
    }
    Ok(bytes)
}
