//! Key packages as docs/MLS.md reads them, and a message at a border as docs/API.md has it.
use crate::tests::mls_messages::{KEY_PACKAGE, PRIVATE_MESSAGE};
use crate::tests::same;
use mls::{MLSMessage, MLSMessageBody};
use mls_tree::{KeyPackage, KeyPackageView};
use std::alloc::Global;
use std::test::Fail;
use tls_codec::Error;
use tls_codec_validate::{Rejected, Validate};
use tls_codec_views::Encoded;

// The key package that a message is. Rejected bytes cost no memory.
fn key_package_of(alloc: Global, bytes: &[u8]) -> Result<Option<KeyPackage>, Error> {
    let message = MLSMessage::tls_deserialize_validated(alloc, bytes)?;
    match message.body {
        MLSMessageBody::MlsKeyPackage(package) => Ok(Some(package)),
        _ => Ok(None),
    }
}

// Why a message is rejected, and the position of the rejected field.
fn check(bytes: &[u8]) -> Result<(), (Error, usize)> {
    match MLSMessage::tls_validate(bytes) {
        Ok(()) => Ok(()),
        Err(rejected) => Err((rejected.error, rejected.at(bytes))),
    }
}

// The key in a key package, without memory.
fn init_key_of(bytes: &[u8]) -> Result<&[u8], Rejected<'_>> {
    let package = KeyPackageView::from(Encoded::<KeyPackage>::new(bytes)?);
    Ok(package.init_key.content())
}

#[test]
fn a_key_package_in_a_message(rt: HostRuntime) -> Result<(), Fail> {
    let alloc = rt.alloc();
    let Some(package) = key_package_of(alloc, &KEY_PACKAGE)? else {
        panic!(rt; "no key package");
    };
    same(&rt, package.init_key.as_slice(), [0xf1u8, 0xf2].as_slice());
    let other = key_package_of(alloc, &PRIVATE_MESSAGE)?;
    same(&rt, other.is_none(), true);
    let short = key_package_of(alloc, &KEY_PACKAGE[..78]).err();
    same(
        &rt,
        short,
        Some(Error::DecodingError("declared content is not there")),
    );
    Ok(())
}

#[test]
fn a_key_in_place(rt: HostRuntime) {
    let found = init_key_of(&KEY_PACKAGE[4..]);
    same(&rt, found, Ok([0xf1u8, 0xf2].as_slice()));
    let short = init_key_of(&KEY_PACKAGE[4..78]);
    let place = short.err().map(|rejected| rejected.at(&KEY_PACKAGE[4..78]));
    same(&rt, place, Some(72));
}

// Its last field has one byte of two; then a byte comes after it.
#[test]
fn a_message_at_a_border(rt: HostRuntime) -> Result<(), Fail> {
    same(&rt, check(&KEY_PACKAGE), Ok(()));
    let not_there = Error::DecodingError("declared content is not there");
    same(&rt, check(&KEY_PACKAGE[..78]), Err((not_there, 76)));
    let mut longer = KEY_PACKAGE.to_vec(rt.alloc())?;
    longer.push(0)?;
    same(&rt, check(&longer), Err((Error::TrailingData, 79)));
    Ok(())
}
