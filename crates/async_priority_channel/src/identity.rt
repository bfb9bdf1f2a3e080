//! The random bits that identify a channel.
use std::random::RandomSource;
use std::sync::{OnceLock, Wait, WaitMethods};

/// 128 random bits, which are drawn when the channel is compared for the first time. The language
/// compares no pointers into two blocks. Two channels have the same bits with a chance of 2^-128.
#[derive(Drop)]
pub struct Identity {
    bits: OnceLock<u128>,
}

impl Identity {
    pub fn new() -> Self {
        Identity {
            bits: OnceLock::new(),
        }
    }

    pub fn bits<R: Wait + RandomSource>(&self, rt: &R) -> u128 {
        *self.bits.get_or_init(rt, || draw(rt))
    }
}

// The system does not refuse 16 random bytes; if it does, retry.
fn draw<R: Wait + RandomSource>(rt: &R) -> u128 {
    let mut bytes = [0; 16];
    for _ in rt.forever() {
        if rt.fill_bytes(&mut bytes).is_ok() {
            return u128::from_le_bytes(bytes);
        }
    }
    unreachable!()
}
