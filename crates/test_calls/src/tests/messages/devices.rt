//! Devices that move one byte a call, and fail.
use super::LOG;
use crate::tests::{holds, same, same_at};
use std::test::Fail;
use tls_codec::{
    Deserialize, DeserializeBytes, Error, Fault, Serialize, Sink, Source, TlsByteVecU16, vlen,
    write_all,
};
use tls_codec_vectors::{Drip, Failing, Log, Trickle};

const READ_FAILED: Error = Error::DecodingError("read failed");

const WRITE_FAILED: Error = Error::EncodingError("write failed");

#[test]
fn a_trickle_appends(rt: HostRuntime) -> Result<(), Fail> {
    let alloc = rt.alloc();
    let mut sink = Trickle::new(vec![in alloc; 0u8; 65_536]?);
    write_all(&mut sink, &[0, 1, 2])?;
    let mut whole = vec![in alloc; 0u8; 65_536]?;
    whole.extend_from_slice(&[0, 1, 2])?;
    same(&rt, sink.into_inner().as_slice(), whole.as_slice());
    Ok(())
}

// A call that is not planned to fail is the call of the device inside, with the whole buffer,
// vector or piece.
#[test]
fn whole_pieces_are_handed_on(rt: HostRuntime) -> Result<(), Fail> {
    let mut source = Failing::new([1u8, 2, 3, 4, 5].as_slice(), 3, 1, Fault::Failed);
    let mut into = [0; 3];
    same(&rt, source.pull(&mut into), Ok(3));
    same(&rt, into, [1, 2, 3]);
    let mut onto = Vec::with_capacity(rt.alloc(), 2)?;
    same(&rt, source.pull_onto(&mut onto, 2), Ok(2));
    same(&rt, onto.as_slice(), [4, 5].as_slice());
    let mut sink = Failing::new(Vec::new(rt.alloc()), 2, 1, Fault::Failed);
    same(&rt, sink.give(&[1, 2, 3]), Ok(3));
    same(&rt, sink.into_inner().as_slice(), [1, 2, 3].as_slice());
    Ok(())
}

#[test]
fn a_length_one_byte_a_call(rt: HostRuntime) {
    let mut source = Drip::new(&[0x40, 0x40]);
    same(&rt, vlen::read_length(&mut source), Ok((64, 2)));
    let mut source = Drip::new(&[0x40, 0x25]);
    same(
        &rt,
        vlen::read_length(&mut source),
        Err(Error::InvalidVectorLength),
    );
}

// After the bytes of the log no call is made, so a fault at the fifteenth call never comes.
#[test]
fn a_log_from_a_source_that_fails(rt: HostRuntime) -> Result<(), Fail> {
    let alloc = rt.alloc();
    let log = Log::tls_deserialize_exact_bytes(alloc, &LOG)?;
    for (fault, times, error) in [
        (Fault::Failed, 1, Some(READ_FAILED)),
        (Fault::NoMemory, 1, Some(Error::OutOfMemory)),
        (Fault::Interrupted, 16, None),
        (Fault::Interrupted, 17, Some(READ_FAILED)),
    ] {
        for at in 1..16u64 {
            let mut source = Failing::new(Drip::new(&LOG), at, times, fault);
            let found = Log::tls_deserialize(alloc, &mut source);
            let counted = (
                source.failures(),
                source.interruptions(),
                source.shortages(),
            );
            let (came, error) = if at < 15 { (times, error) } else { (0, None) };
            let counts = match fault {
                Fault::Failed => (came, 0, 0),
                Fault::Interrupted => (0, came, 0),
                Fault::NoMemory => (0, 0, came),
            };
            same_at(&rt, at, counted, counts);
            match found {
                Ok(found) => same_at(&rt, at, found == log && error.is_none(), true),
                Err(found) => same_at(&rt, at, Some(found), error),
            }
        }
    }
    Ok(())
}

#[test]
fn a_log_into_a_sink_that_fails(rt: HostRuntime) -> Result<(), Fail> {
    let alloc = rt.alloc();
    let log = Log::tls_deserialize_exact_bytes(alloc, &LOG)?;
    for (fault, error) in [
        (Fault::Failed, WRITE_FAILED),
        (Fault::NoMemory, Error::OutOfMemory),
    ] {
        for sent in 0..LOG.len() {
            let trickle = Trickle::new(Vec::new(alloc));
            let mut sink = Failing::new(trickle, sent as u64 + 1, 1, fault);
            same(&rt, log.tls_serialize(&mut sink), Err(error));
            let received = sink.into_inner().into_inner();
            same(&rt, received.as_slice(), &LOG[..sent]);
            holds(
                &rt,
                Log::tls_deserialize_bytes(alloc, received.as_slice()).is_err(),
            );
            let mut source = received.as_slice();
            holds(&rt, Log::tls_deserialize(alloc, &mut source).is_err());
        }
    }
    Ok(())
}

// Each of these rows has the first call that fails, how many do, and the error. A byte came by each call before.
#[test]
fn a_pair_into_a_sink_that_fails(rt: HostRuntime) -> Result<(), Fail> {
    let alloc = rt.alloc();
    let pair = (1u8, TlsByteVecU16::from_slice(alloc, &[9, 8])?);
    for (at, times, fault, error) in [
        (4, 1, Fault::Failed, WRITE_FAILED),
        (5, 17, Fault::Interrupted, WRITE_FAILED),
        (3, 1, Fault::NoMemory, Error::OutOfMemory),
    ] {
        let mut sink = Failing::new(Trickle::new(Vec::new(alloc)), at, times, fault);
        same(&rt, pair.tls_serialize(&mut sink), Err(error));
        let received = sink.into_inner().into_inner();
        same(
            &rt,
            received.as_slice(),
            &[1, 0, 2, 9, 8][..at as usize - 1],
        );
    }
    Ok(())
}

// They are counted in a row, and a byte that comes begins another row.
#[test]
fn interruptions_over_whole_call(rt: HostRuntime) {
    let alloc = rt.alloc();
    for (times, number) in [(16, Ok(5)), (17, Err(READ_FAILED))] {
        let mut source = Failing::new([5u8].as_slice(), 1, times, Fault::Interrupted);
        same(&rt, u8::tls_deserialize(alloc, &mut source), number);
        same(&rt, source.interruptions(), times);
        let mut source = Failing::new(Drip::new(&[5]), 1, times, Fault::Interrupted);
        same(&rt, u8::tls_deserialize(alloc, &mut source), number);
        same(&rt, source.interruptions(), times);
    }
    let inner = Failing::new(Drip::new(&[0, 7]), 2, 16, Fault::Interrupted);
    let mut outer = Failing::new(inner, 1, 16, Fault::Interrupted);
    same(&rt, u16::tls_deserialize(alloc, &mut outer), Ok(7));
    same(&rt, outer.interruptions(), 16);
    same(&rt, outer.into_inner().interruptions(), 16);
}
