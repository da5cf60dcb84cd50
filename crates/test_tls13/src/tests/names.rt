//! The names and the numbers of values (RFC 8446, appendix B): what is printed, converted and ordered.
use std::alloc::{AllocError, Global};
use std::fmt::Display;
use std::hash::{DefaultHasher, Hash, Hasher};
use std::test::Fail;
use test_support::rows::{same, same_at};
use tls_codec::Error;
use tls13::{AlertDescription, HandshakeType, KeyUpdateRequest, SignatureScheme};

#[test]
fn names(rt: HostRuntime) -> Result<(), Fail> {
    same(KeyUpdateRequest::UpdateRequested.name(), "update_requested")?;
    for (alert, name) in [
        (AlertDescription::CLOSE_NOTIFY, Some("close_notify")),
        (AlertDescription(120), Some("no_application_protocol")),
        (AlertDescription(1), None),
    ] {
        same(alert.name(), name)?;
    }
    Ok(())
}

fn printed<T: Display>(alloc: Global, value: &T) -> Result<String, AllocError> {
    format!(in alloc; "{value}")
}

#[test]
fn printed_names(rt: HostRuntime) -> Result<(), Fail> {
    let alloc = rt.alloc();
    let closed = printed(alloc, &KeyUpdateRequest::UpdateRequested)?;
    same(closed.as_str(), "update_requested")?;
    let padded = format!(in alloc; "{:>18}", KeyUpdateRequest::UpdateRequested)?;
    same(padded.as_str(), "  update_requested")?;
    let alert = printed(alloc, &AlertDescription::CLOSE_NOTIFY)?;
    same(alert.as_str(), "close_notify")?;
    Ok(())
}

// Two digits a byte.
#[test]
fn printed_numbers(rt: HostRuntime) -> Result<(), Fail> {
    let alloc = rt.alloc();
    same(printed(alloc, &AlertDescription(5))?.as_str(), "0x05")?;
    for (number, text) in [(0x0a0a, "0x0a0a"), (0xfe00, "0xfe00"), (7, "0x0007")] {
        let shown = printed(alloc, &SignatureScheme(number))?;
        same_at(text, shown.as_str(), text)?;
    }
    Ok(())
}

#[test]
fn numbers(rt: HostRuntime) -> Result<(), Fail> {
    same(u8::from(HandshakeType::Finished), 20)?;
    same(HandshakeType::try_from(20u8), Ok(HandshakeType::Finished))?;
    let rejected = KeyUpdateRequest::try_from(2u8);
    same(rejected, Err(Error::UnknownValue(2)))?;
    same(u16::from(SignatureScheme::ED25519), 0x0807)?;
    same(SignatureScheme::from(0x0807), SignatureScheme::ED25519)?;
    Ok(())
}

fn hash_of<T: Hash>(value: &T) -> u64 {
    let mut state = DefaultHasher::new();
    value.hash(&mut state);
    state.finish()
}

#[test]
fn orders_and_hashes(rt: HostRuntime) -> Result<(), Fail> {
    same(HandshakeType::ClientHello < HandshakeType::Finished, true)?;
    let greatest = AlertDescription(90).max(AlertDescription::CLOSE_NOTIFY);
    same(greatest, AlertDescription::USER_CANCELED)?;
    let unnamed = hash_of(&AlertDescription(90));
    same(unnamed, hash_of(&AlertDescription::USER_CANCELED))?;
    let again = hash_of(&KeyUpdateRequest::UpdateRequested);
    same(again, hash_of(&KeyUpdateRequest::UpdateRequested))?;
    Ok(())
}
