// What a part before decides, and what a context does.
use super::framed::Framed;
use super::{rejected, same};
use std::test::Fail;
use tls_codec::{Always, Error, Then, TlsVecU8, When};
use tls_codec_cases::{AnyOf, By, Case, Chosen, Is, Or};
use tls_codec_validate::{
    HoldsKey, KeyCondition, Keyed, Keyless, TagKeyed, Validate, ValidateFor, ValidateKeyed,
};
use tls_codec_vectors::Step;

type Body = Chosen<Or<Case<1, u8>, Case<2, u16>>>;

// A tag, a byte, and two bytes if the tag is 3 or 4.
type Optional = Then<u8, (Always<u8>, When<AnyOf<Is<3>, Is<4>>, u16>)>;

// A tag, and lists of what it decides.
type Lists = Then<u16, (Vec<Body>, TlsVecU8<Body>, Always<u8>)>;

#[test]
fn parts_for_some_tags(rt: HostRuntime) {
    same(&rt, Optional::tls_validate(&[3, 9, 0, 1]), Ok(()));
    same(&rt, Optional::tls_validate(&[4, 9, 0, 1]), Ok(()));
    same(&rt, Optional::tls_validate(&[5, 9]), Ok(()));
    same(
        &rt,
        Optional::tls_validate(&[3, 9, 0]),
        Err(rejected(Error::EndOfStream, &[0])),
    );
    same(
        &rt,
        Optional::tls_validate(&[5, 9, 0]),
        Err(rejected(Error::TrailingData, &[0])),
    );
}

#[test]
fn lists_that_a_tag_decides(rt: HostRuntime) {
    same(&rt, Lists::tls_validate(&[0, 1, 2, 7, 8, 1, 9, 5]), Ok(()));
    same(&rt, Lists::tls_validate(&[0, 2, 2, 7, 8, 0, 5]), Ok(()));
    same(
        &rt,
        Lists::tls_validate(&[0, 2, 3, 7, 8, 9, 0, 5]),
        Err(rejected(
            Error::DecodingError("elements do not fill the declared length"),
            &[9, 0, 5],
        )),
    );
    same(
        &rt,
        Lists::tls_validate(&[0, 3, 1, 7, 0, 5]),
        Err(rejected(Error::UnknownValue(3), &[7, 0, 5])),
    );
    same(
        &rt,
        Lists::tls_validate(&[0, 1, 0, 2, 7]),
        Err(rejected(Error::EndOfStream, &[])),
    );
}

#[test]
fn by_the_key_alone(rt: HostRuntime) {
    same(
        &rt,
        <Body as ValidateFor<u16>>::tls_validate_prefix_for(&2, &[0, 5, 6]),
        Ok([6].as_slice()),
    );
    same(
        &rt,
        <Body as ValidateFor<u16>>::tls_validate_for(&2, &[0, 5, 6]),
        Err(rejected(Error::TrailingData, &[6])),
    );
    same(
        &rt,
        <Body as ValidateFor<u8>>::tls_validate_for(&1, &[5]),
        Ok(()),
    );
}

#[test]
fn values_in_a_context(rt: HostRuntime) -> Result<(), Fail> {
    let alloc = rt.alloc();
    let value = Body::tls_deserialize_validated_for(&2u16, alloc, &[0, 5])?;
    same(&rt, value == Chosen(Or::Second(Case(5))), true);
    let (value, rest) = Body::tls_deserialize_validated_prefix_for(&1u16, alloc, &[5, 6])?;
    same(&rt, value == Chosen(Or::First(Case(5))), true);
    same(&rt, rest, [6].as_slice());
    let found = Body::tls_deserialize_validated_for(&3u16, alloc, &[0, 5]);
    same(&rt, found.err(), Some(Error::UnknownValue(3)));
    Ok(())
}

#[test]
fn keys(rt: HostRuntime) {
    same(&rt, 5u8.key(), 5);
    same(&rt, 300u16.key(), 300);
    same(&rt, (7u8, 300u16).key(), (7, 300));
    same(&rt, (Keyless(7u32), 5u8, 300u16).key(), ((), 5, 300));
    same(&rt, Step::Jump(9).key(), 2);
    same(&rt, <u16 as TagKeyed>::tag_of_key(&300), 300);
    same(&rt, <Is<3> as KeyCondition<u8>>::test_key(&3), true);
    same(
        &rt,
        <AnyOf<Is<3>, Is<4>> as KeyCondition<u8>>::test_key(&5),
        false,
    );
}

#[test]
fn keys_in_bytes(rt: HostRuntime) {
    same(
        &rt,
        u8::tls_validate_keyed(&[5, 6]),
        Ok((5, [6].as_slice())),
    );
    same(
        &rt,
        u16::tls_validate_keyed(&[1, 2]),
        Ok((258, [].as_slice())),
    );
    same(
        &rt,
        <(Keyless<u8>, u16)>::tls_validate_keyed(&[7, 1, 2, 9]),
        Ok((((), 258), [9].as_slice())),
    );
    same(
        &rt,
        <(u8, Keyless<u16>, u8)>::tls_validate_keyed(&[7, 1, 2, 9]),
        Ok(((7, (), 9), [].as_slice())),
    );
    same(
        &rt,
        Step::tls_validate_keyed(&[2, 0, 0, 0, 5, 6]),
        Ok((2, [6].as_slice())),
    );
    same(
        &rt,
        Step::tls_validate_keyed(&[2, 0, 0, 0]),
        Err(rejected(Error::EndOfStream, &[0, 0, 0])),
    );
}

// The tag is in a struct before, after two other bytes.
#[test]
fn tags_that_a_struct_holds(rt: HostRuntime) {
    type Message = Then<Framed, By<u8, Body>>;
    same(&rt, Framed { size: 9, kind: 2 }.key(), 2);
    same(&rt, <Framed as HoldsKey<u8>>::held_key(&2), 2);
    same(&rt, Message::tls_validate(&[0, 9, 2, 0, 5]), Ok(()));
    same(&rt, Message::tls_validate(&[0, 9, 1, 5]), Ok(()));
    same(
        &rt,
        Message::tls_validate(&[0, 9, 2, 5]),
        Err(rejected(Error::EndOfStream, &[5])),
    );
    same(
        &rt,
        <By<u8, Body> as ValidateFor<Framed>>::tls_validate_for(&1, &[5]),
        Ok(()),
    );
}
