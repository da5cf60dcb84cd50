//! Bytes with one bit flipped.
use crate::messages::validated_and_decoded;
use std::alloc::Global;
use tls_codec_outcome::Outcome;

/// The first bit that makes the two calls disagree when it is flipped. `None`: they agree at each bit.
pub fn first_dispute(alloc: Global, name: &str, bytes: &mut [u8]) -> Option<usize> {
    for bit in 0..bytes.len().saturating_mul(8) {
        turn(bytes, bit);
        let agree = agree_on(alloc, name, bytes);
        turn(bytes, bit);
        if !agree {
            return Some(bit);
        }
    }
    None
}

fn turn(bytes: &mut [u8], bit: usize) {
    if let Some(byte) = bytes.get_mut(bit / 8) {
        *byte ^= 1 << (bit % 8);
    }
}

// Whether both say the same, except for the place.
fn agree_on(alloc: Global, name: &str, bytes: &[u8]) -> bool {
    match validated_and_decoded(alloc, name, bytes) {
        Some((validated, decoded)) => Outcome { at: 0, ..validated } == decoded,
        None => false,
    }
}
