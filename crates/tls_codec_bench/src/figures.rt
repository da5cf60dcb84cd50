//! The figures of a case.
ghost use Rattle.std.specs.Prelude.{◌≡◌, IfOk};
ghost use Rattle.tls_codec_bench.specs.Figures.{IsOfCopy};
ghost use Rattle.tls_codec_bench.specs.declared.cases.Case.TheVariants.{Copy1048576, Copy4096, Copy64};

use crate::calls::{
    copy, copy_into, decode_outside, decode_reader, decode_slice, encode, encode_into, validate,
    view,
};
use crate::cases::Case;
use crate::fault::BenchFault;
use crate::in_place::InPlace;
use crate::noise::Noise;
use crate::timing::time;
use crate::values::FromNoise;
use mls::{KeyPackage, PrivateMessage, UpdatePath, Welcome};
use std::alloc::Global;
use std::cell::RefCell;
use std::rt::Clock;
use tls_codec_base::{Deserialize, Serialize};
use tls_codec_bytes::TlsByteVecU32;
use tls_codec_vec::TlsVecU32;
use tls_codec_vectors::Log;
use tls_codec_vl::VLBytes;

// Nested lists, by their depth.
type Two = Vec<Vec<u8>>;

type Four = Vec<Vec<Two>>;

type Eight = Vec<Vec<Vec<Vec<Four>>>>;

type Sixteen = Vec<Vec<Vec<Vec<Vec<Vec<Vec<Vec<Eight>>>>>>>>;

// Two lists of 2,048 bytes in one, and that one in others that hold nothing else. Fewer levels are
// its end.
const DEEP: [usize; 16] = [1, 1, 1, 1, 1, 1, 1, 1, 1, 1, 1, 1, 1, 1, 2, 2048];

/// How many bytes a case has, and how many nanoseconds each of its calls takes.
#[derive(Clone, Copy, PartialEq, Eq, Debug)]
pub struct Figures {
    /// The bytes that are written and read.
    pub bytes: usize,
    /// `tls_serialize_detached`, and dropping the vector.
    pub encode: u64,
    /// `tls_serialize_into` a vector that is used again and again.
    pub into: u64,
    /// `tls_deserialize_bytes`, and dropping the value.
    pub slice: u64,
    /// `tls_deserialize` from a slice, or from a `Read` outside, and dropping the value.
    pub reader: u64,
    /// `tls_validate_prefix`.
    pub validate: u64,
    /// `Encoded::new`, and taking the encoding apart, one level deep.
    pub view: u64,
}

/// Times a case.
///
/// The faults are those of [`time`], and `Memory`.
pub fn measure<C: Clock>(alloc: Global, clock: &C, case: Case) -> Result<Figures, BenchFault>
    ensures least { case ≡ Copy64 → IfOk result (IsOfCopy 64) }
    ensures page { case ≡ Copy4096 → IfOk result (IsOfCopy 4096) }
    ensures greatest { case ≡ Copy1048576 → IfOk result (IsOfCopy 1048576) }
{
    match case {
        Case::Copy64 => measure_copy(alloc, clock, 64),
        Case::Copy4096 => measure_copy(alloc, clock, 4096),
        Case::Copy1048576 => measure_copy(alloc, clock, 1_048_576),
        Case::Bytes64 => measure_codec::<Vec<u8>, C>(alloc, clock, &[64]),
        Case::Bytes4096 => measure_codec::<Vec<u8>, C>(alloc, clock, &[4096]),
        Case::Bytes1048576 => measure_codec::<Vec<u8>, C>(alloc, clock, &[1_048_576]),
        Case::Numbers512 => measure_codec::<Vec<u16>, C>(alloc, clock, &[512]),
        Case::Numbers65536 => measure_codec::<Vec<u16>, C>(alloc, clock, &[65_536]),
        Case::FixedNumbers65536 => measure_codec::<TlsVecU32<u16>, C>(alloc, clock, &[65_536]),
        Case::Lists => measure_codec::<Vec<Vec<u16>>, C>(alloc, clock, &[256, 64]),
        Case::Vl64 => measure_codec::<VLBytes, C>(alloc, clock, &[64]),
        Case::Vl4096 => measure_codec::<VLBytes, C>(alloc, clock, &[4096]),
        Case::Vl1048576 => measure_codec::<VLBytes, C>(alloc, clock, &[1_048_576]),
        Case::Fixed1048576 => measure_codec::<TlsByteVecU32, C>(alloc, clock, &[1_048_576]),
        Case::VlLists => measure_codec::<Vec<VLBytes>, C>(alloc, clock, &[1000, 32]),
        Case::VlEmpty => measure_codec::<Vec<VLBytes>, C>(alloc, clock, &[1000, 0]),
        Case::Text64 => measure_codec::<String, C>(alloc, clock, &[64]),
        Case::Text4096 => measure_codec::<String, C>(alloc, clock, &[4096]),
        Case::Log => measure_codec::<Log, C>(alloc, clock, &[16]),
        Case::KeyPackage => measure_codec::<KeyPackage, C>(alloc, clock, &[]),
        Case::Welcome => measure_codec::<Welcome, C>(alloc, clock, &[100, 80]),
        Case::PrivateMessage => measure_codec::<PrivateMessage, C>(alloc, clock, &[256]),
        Case::UpdatePath => measure_codec::<UpdatePath, C>(alloc, clock, &[10, 10, 48]),
        Case::Vl4096Outside => measure_outside::<VLBytes, C>(alloc, clock, &[4096]),
        Case::Numbers512Outside => measure_outside::<Vec<u16>, C>(alloc, clock, &[512]),
        Case::DeepOne => measure_codec::<Eight, C>(alloc, clock, &[1; 8]),
        Case::DeepTwo => measure_codec::<Eight, C>(alloc, clock, &[2; 8]),
        Case::Deep2 => measure_codec::<Two, C>(alloc, clock, &DEEP[14..]),
        Case::Deep4 => measure_codec::<Four, C>(alloc, clock, &DEEP[12..]),
        Case::Deep8 => measure_codec::<Eight, C>(alloc, clock, &DEEP[8..]),
        Case::Deep16 => measure_codec::<Sixteen, C>(alloc, clock, &DEEP),
    }
}

// Times the copy of `count` bytes.
fn measure_copy<C: Clock>(alloc: Global, clock: &C, count: usize) -> Result<Figures, BenchFault>
    ensures { IfOk result (IsOfCopy count) }
{
    let bytes = Vec::<u8>::from_noise(alloc, &mut Noise::new(), &[count])?;
    let nanos = time(clock, || copy(alloc, &bytes).is_ok())?;
    let reused = RefCell::new(Vec::new(alloc));
    let into = time(clock, || match reused.try_borrow_mut() {
        Ok(mut out) => copy_into(&bytes, &mut out).is_ok(),
        Err(_) => false,
    })?;
    Ok(Figures {
        bytes: count,
        encode: nanos,
        into,
        slice: nanos,
        reader: nanos,
        validate: nanos,
        view: nanos,
    })
}

// Times the calls for a value of this shape.
fn measure_codec<T, C: Clock>(
    alloc: Global,
    clock: &C,
    shape: &[usize],
) -> Result<Figures, BenchFault>
where
    T: FromNoise + Serialize + Deserialize + InPlace,
{
    let value = T::from_noise(alloc, &mut Noise::new(), shape)?;
    let Ok(bytes) = encode(alloc, &value) else {
        return Err(BenchFault::Refused);
    };
    let encode = time(clock, || encode(alloc, &value).is_ok())?;
    let reused = RefCell::new(Vec::new(alloc));
    let into = time(clock, || match reused.try_borrow_mut() {
        Ok(mut out) => encode_into(&value, &mut out).is_ok(),
        Err(_) => false,
    })?;
    let slice = time(clock, || decode_slice::<T>(alloc, &bytes).is_ok())?;
    let reader = time(clock, || decode_reader::<T>(alloc, &bytes).is_ok())?;
    let validate = time(clock, || validate::<T>(&bytes).is_ok())?;
    let view = time(clock, || view::<T>(&bytes).is_ok())?;
    Ok(Figures {
        bytes: bytes.len(),
        encode,
        into,
        slice,
        reader,
        validate,
        view,
    })
}

// The same, but the source of the last call doesn't have its bytes at hand.
fn measure_outside<T, C: Clock>(
    alloc: Global,
    clock: &C,
    shape: &[usize],
) -> Result<Figures, BenchFault>
where
    T: FromNoise + Serialize + Deserialize + InPlace,
{
    let figures = measure_codec::<T, C>(alloc, clock, shape)?;
    let value = T::from_noise(alloc, &mut Noise::new(), shape)?;
    let Ok(bytes) = encode(alloc, &value) else {
        return Err(BenchFault::Refused);
    };
    let reader = time(clock, || decode_outside::<T>(alloc, &bytes).is_ok())?;
    Ok(Figures { reader, ..figures })
}
