//! Values over the bytes of a noise, so that none is constant.
use crate::noise::Noise;
use std::alloc::{AllocError, Global};
use tls_codec_bytes::TlsByteVec;
use tls_codec_vec::TlsVec;
use tls_codec_vectors::{Leaf, Log, Step};
use tls_codec_vl::VLBytes;

/// A type with values that come from a noise.
pub trait FromNoise: Sized {
    /// A value, whose lists have as many elements as the shape says, from the outermost on.
    fn from_noise(alloc: Global, noise: &mut Noise, shape: &[usize]) -> Result<Self, AllocError>;
}

impl FromNoise for u8 {
    fn from_noise(_alloc: Global, noise: &mut Noise, _shape: &[usize]) -> Result<u8, AllocError> {
        Ok((noise.number() & 0xff) as u8)
    }
}

impl FromNoise for u16 {
    fn from_noise(_alloc: Global, noise: &mut Noise, _shape: &[usize]) -> Result<u16, AllocError> {
        Ok((noise.number() & 0xffff) as u16)
    }
}

impl<T: FromNoise + Drop> FromNoise for Vec<T> {
    fn from_noise(alloc: Global, noise: &mut Noise, shape: &[usize]) -> Result<Vec<T>, AllocError> {
        let mut elements = Vec::new(alloc);
        let Some((count, inner)) = shape.split_first() else {
            return Ok(elements);
        };
        for _ in 0..*count {
            elements.push(T::from_noise(alloc, noise, inner)?)?;
        }
        Ok(elements)
    }
}

// As many letters `a`, since random bytes are no text.
impl FromNoise for String {
    fn from_noise(
        alloc: Global,
        _noise: &mut Noise,
        shape: &[usize],
    ) -> Result<String, AllocError> {
        let mut text = String::new(alloc);
        for _ in 0..shape.first().copied().unwrap_or(0) {
            text.push('a')?;
        }
        Ok(text)
    }
}

// Leaves with the codes 0 to 99, and an identity and names of as many bytes as the shape says.
impl FromNoise for Log {
    fn from_noise(alloc: Global, noise: &mut Noise, shape: &[usize]) -> Result<Log, AllocError> {
        let id = TlsByteVec::from_noise(alloc, noise, shape)?;
        let mut leaves = Vec::new(alloc);
        for code in 0..100u16 {
            let name = VLBytes::from_noise(alloc, noise, shape)?;
            leaves.push(Leaf { code, name })?;
        }
        Ok(Log {
            id,
            leaves: TlsVec::new(leaves),
            last: Some(Step::Jump(5)),
        })
    }
}

impl FromNoise for VLBytes {
    fn from_noise(
        alloc: Global,
        noise: &mut Noise,
        shape: &[usize],
    ) -> Result<VLBytes, AllocError> {
        let content = Vec::from_noise(alloc, noise, shape)?;
        Ok(VLBytes::new(content))
    }
}

impl<F, T: FromNoise + Drop> FromNoise for TlsVec<F, T> {
    fn from_noise(
        alloc: Global,
        noise: &mut Noise,
        shape: &[usize],
    ) -> Result<TlsVec<F, T>, AllocError> {
        let elements = Vec::from_noise(alloc, noise, shape)?;
        Ok(TlsVec::new(elements))
    }
}

impl<F> FromNoise for TlsByteVec<F> {
    fn from_noise(
        alloc: Global,
        noise: &mut Noise,
        shape: &[usize],
    ) -> Result<TlsByteVec<F>, AllocError> {
        let content = Vec::from_noise(alloc, noise, shape)?;
        Ok(TlsByteVec::new(content))
    }
}
