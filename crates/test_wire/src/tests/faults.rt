// A fault is returned at once. No call is made after it, nor after the end.
use super::devices::{ENDED, FailingFirst, Fives, Keeper, Plan};
use super::same;
use std::io::ErrorKind;
use std::test::Fail;
use tls_codec_wire::device::{Fault, Source};
use tls_codec_wire::error::Error;
use tls_codec_wire::gather::read_bytes_bounded;
use tls_codec_wire::outside::Outside;
use tls_codec_wire::quic::{read_varint, write_varint};
use tls_codec_wire::transfer::{read_exactly, write_all};
use tls_codec_wire::varint::TlsVarInt;
use tls_codec_wire::vlen::{read_length, write_length};

// Fails once, and then works.
fn failing_once(fault: Fault) -> Plan {
    Plan {
        first: Some(fault),
        bytes: 9,
        interruptions: 0,
        after: None,
    }
}

#[test]
fn a_read_that_failed_is_not_tried_again(rt: HostRuntime) {
    for (fault, error) in [
        (Fault::Failed, Error::DecodingError("read failed")),
        (Fault::NoMemory, Error::OutOfMemory),
    ] {
        let mut src = Fives::new(failing_once(fault));
        same(&rt, read_exactly(&mut src, &mut [0; 2]), Err(error));
        same(&rt, src.progress.calls, 1);
        let mut src = Fives::new(failing_once(fault));
        let refused = read_bytes_bounded(rt.alloc(), &mut src, 2);
        same(&rt, refused.err(), Some(error));
        same(&rt, src.progress.calls, 1);
        let mut src = Fives::new(failing_once(fault));
        same(&rt, read_varint(&mut src), Err(error));
        same(&rt, src.progress.calls, 1);
        let mut src = Fives::new(failing_once(fault));
        same(&rt, read_length(&mut src), Err(error));
        same(&rt, src.progress.calls, 1);
    }
}

#[test]
fn a_write_that_failed_is_not_tried_again(rt: HostRuntime) -> Result<(), Fail> {
    let n = TlsVarInt::try_from(64)?;
    for (fault, error) in [
        (Fault::Failed, Error::EncodingError("write failed")),
        (Fault::NoMemory, Error::OutOfMemory),
    ] {
        let mut sink = Keeper::new(Vec::new(rt.alloc()), failing_once(fault));
        same(&rt, write_all(&mut sink, &[1, 2]), Err(error));
        same(&rt, sink.progress.calls, 1);
        let mut sink = Keeper::new(Vec::new(rt.alloc()), failing_once(fault));
        same(&rt, write_varint(&mut sink, n), Err(error));
        same(&rt, sink.progress.calls, 1);
        let mut sink = Keeper::new(Vec::new(rt.alloc()), failing_once(fault));
        same(&rt, write_length(&mut sink, 64), Err(error));
        same(&rt, sink.progress.calls, 1);
    }
    Ok(())
}

#[test]
fn the_end_is_asked_for_once(rt: HostRuntime) {
    let one = Plan { bytes: 1, ..ENDED };
    let mut src = Fives::new(one);
    let refused = read_exactly(&mut src, &mut [0; 3]);
    same(&rt, refused, Err(Error::EndOfStream));
    same(&rt, src.progress.calls, 2);
    let mut src = Fives::new(one);
    let refused = read_bytes_bounded(rt.alloc(), &mut src, 3);
    same(&rt, refused.err(), Some(Error::EndOfStream));
    same(&rt, src.progress.calls, 2);
    let mut src = Fives::new(ENDED);
    same(&rt, read_length(&mut src), Err(Error::EndOfStream));
    same(&rt, src.progress.calls, 1);
}

#[test]
fn a_reader_outside_is_read_once_a_pull(rt: HostRuntime) {
    let kinds = [
        ErrorKind::Interrupted,
        ErrorKind::OutOfMemory,
        ErrorKind::PermissionDenied,
    ];
    let reader = FailingFirst {
        kinds: &kinds,
        reads: 0,
    };
    let mut src = Outside::new(reader);
    let mut into = [0; 2];
    for fault in [Fault::Interrupted, Fault::NoMemory, Fault::Failed] {
        same(&rt, src.pull(&mut into), Err(fault));
    }
    same(&rt, src.pull(&mut into), Ok(1));
    same(&rt, into, [5, 0]);
    let counts = (src.interruptions(), src.shortages(), src.failures());
    same(&rt, counts, (1, 1, 1));
    same(&rt, src.moved(), 1);
    same(&rt, src.into_inner().reads, 4);
}
