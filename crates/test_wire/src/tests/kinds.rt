// Each kind of error that std names, a timeout among them, as a fault and as an error.
use super::devices::Failing;
use super::same_at;
use std::io;
use std::io::ErrorKind;
use std::process::Abort;
use tls_codec_wire::device::{Fault, Sink, Source};
use tls_codec_wire::error::Error;
use tls_codec_wire::outside::Outside;

const IO_ERROR: Error = Error::DecodingError("io error");

// What an error of this kind is if a reader or a writer outside fails by it, and what it becomes.
fn expect_fault_and_error(rt: &impl Abort, kind: ErrorKind, fault: Fault, error: Error) {
    let mut src = Outside::new(Failing { kind });
    same_at(rt, kind, src.pull(&mut [0]), Err(fault));
    let mut sink = Outside::new(Failing { kind });
    same_at(rt, kind, sink.give(&[0]), Err(fault));
    same_at(rt, kind, Error::from(io::Error::from(kind)), error);
}

#[test]
fn three_kinds_are_told_apart(rt: HostRuntime) {
    for (kind, fault, error) in [
        (ErrorKind::Interrupted, Fault::Interrupted, IO_ERROR),
        (ErrorKind::OutOfMemory, Fault::NoMemory, IO_ERROR),
        (ErrorKind::UnexpectedEof, Fault::Failed, Error::EndOfStream),
    ] {
        expect_fault_and_error(&rt, kind, fault, error);
    }
}

#[test]
fn every_other_kind_is_a_failure(rt: HostRuntime) {
    for kind in [
        ErrorKind::NotFound,
        ErrorKind::PermissionDenied,
        ErrorKind::ConnectionRefused,
        ErrorKind::ConnectionReset,
        ErrorKind::HostUnreachable,
        ErrorKind::NetworkUnreachable,
        ErrorKind::ConnectionAborted,
        ErrorKind::NotConnected,
        ErrorKind::AddrInUse,
        ErrorKind::AddrNotAvailable,
        ErrorKind::NetworkDown,
        ErrorKind::BrokenPipe,
        ErrorKind::AlreadyExists,
        ErrorKind::WouldBlock,
        ErrorKind::NotADirectory,
        ErrorKind::IsADirectory,
        ErrorKind::DirectoryNotEmpty,
        ErrorKind::ReadOnlyFilesystem,
        ErrorKind::FilesystemLoop,
        ErrorKind::StaleNetworkFileHandle,
        ErrorKind::InvalidInput,
        ErrorKind::InvalidData,
        ErrorKind::TimedOut,
        ErrorKind::WriteZero,
        ErrorKind::StorageFull,
        ErrorKind::NotSeekable,
        ErrorKind::QuotaExceeded,
        ErrorKind::FileTooLarge,
        ErrorKind::ResourceBusy,
        ErrorKind::ExecutableFileBusy,
        ErrorKind::Deadlock,
        ErrorKind::CrossesDevices,
        ErrorKind::TooManyLinks,
        ErrorKind::InvalidFilename,
        ErrorKind::ArgumentListTooLong,
        ErrorKind::Unsupported,
        ErrorKind::InProgress,
        ErrorKind::Other,
        ErrorKind::Uncategorized,
    ] {
        expect_fault_and_error(&rt, kind, Fault::Failed, IO_ERROR);
    }
}
