// What the laws say, seen at messages and at vectors.
use super::LOG;
use crate::tests::{hash_of, holds, same, same_at};
use std::hash::Hash;
use std::process::Abort;
use std::test::Fail;
use tls_codec::laws::{
    both_paths_agree, contents_out_of_bounds_are_not_sent, each_value_is_full,
    encoders_refuse_only_what_has_no_form, equal_bytes_have_equal_spellings, formats_are_lawful,
    forms_cut_short_have_no_spelling, full_values_have_full_parts, just_the_rest_is_to_come,
    lists_are_spelled_where_their_elements_fit, shortest_contents_are_in_a_row,
    shortest_forms_are_read_back, spellings_are_prefix_free, spellings_are_shortest_forms,
    what_was_read_is_written_again,
};
use tls_codec::{
    Deserialize, DeserializeBytes, Error, SecretTlsVecU8, SecretVLBytes, Serialize, TlsByteVecU16,
    TlsVecU8, TlsVecU16, VLByteVec, VLBytes,
};
use tls_codec_vectors::laws::{
    byte_vectors_are_ordered_as_lists_of_bytes, equal_byte_vectors_have_equal_hashes,
    equal_secret_vectors_have_equal_hashes, equal_vectors_have_equal_hashes,
    messages_are_compared_by_their_fields, second_spelling_of_ping_is_unlawful,
};
use tls_codec_vectors::{Leaf, Log, Step};

#[test]
fn no_prefix_of_a_log_is_read(rt: HostRuntime) {
    spellings_are_prefix_free::<Log>();
    forms_cut_short_have_no_spelling::<Log>();
    formats_are_lawful::<Leaf, Log>();
    let alloc = rt.alloc();
    for end in 0..LOG.len() {
        let mut source = &LOG[..end];
        holds(&rt, Log::tls_deserialize(alloc, &mut source).is_err());
        holds(&rt, Log::tls_deserialize_bytes(alloc, &LOG[..end]).is_err());
    }
    holds(&rt, Log::tls_deserialize_exact_bytes(alloc, &LOG).is_ok());
}

// One field differs in each of these.
#[test]
fn messages_differ_where_a_field_does(rt: HostRuntime) -> Result<(), Fail> {
    messages_are_compared_by_their_fields();
    let alloc = rt.alloc();
    let leaf = [0, 1, 1, 7];
    for other in [[0, 2, 1, 7], [0, 1, 1, 8]] {
        let leaf = Leaf::tls_deserialize_exact_bytes(alloc, &leaf)?;
        let other = Leaf::tls_deserialize_exact_bytes(alloc, &other)?;
        holds(&rt, leaf != other);
    }
    let jump = Step::Jump(5);
    holds(&rt, jump != Step::Jump(6));
    holds(&rt, jump != Step::Ping);
    for place in [1, 5, 7, 13] {
        let mut other = LOG;
        other[place] = 9;
        let log = Log::tls_deserialize_exact_bytes(alloc, &LOG)?;
        let differs = log != Log::tls_deserialize_exact_bytes(alloc, &other)?;
        same_at(&rt, place, differs, true);
    }
    Ok(())
}

// A name's length in two, four or eight bytes is none.
#[test]
fn a_leaf_has_one_spelling(rt: HostRuntime) -> Result<(), Fail> {
    shortest_forms_are_read_back::<Leaf>();
    spellings_are_shortest_forms::<Leaf>();
    what_was_read_is_written_again::<Leaf, &[u8], Vec<u8>>();
    second_spelling_of_ping_is_unlawful();
    just_the_rest_is_to_come::<Leaf, &[u8]>();
    let alloc = rt.alloc();
    let form = [0, 1, 1, 7].as_slice();
    let leaf = Leaf::tls_deserialize_exact_bytes(alloc, form)?;
    same(&rt, leaf.tls_serialize_detached(alloc)?.as_slice(), form);
    for wide in [
        [0, 1, 0x40, 1, 7].as_slice(),
        &[0, 1, 0x80, 0, 0, 1, 7],
        &[0, 1, 0xc0, 0, 0, 0, 0, 0, 0, 1, 7],
    ] {
        let rejected = Leaf::tls_deserialize_exact_bytes(alloc, wide).err();
        same(&rt, rejected, Some(Error::InvalidVectorLength));
        let mut source = wide;
        let rejected = Leaf::tls_deserialize(alloc, &mut source).err();
        same(&rt, rejected, Some(Error::InvalidVectorLength));
    }
    let (_, rest) = Leaf::tls_deserialize_bytes(alloc, &[0, 1, 1, 7, 0, 1, 1, 7])?;
    same(&rt, rest, form);
    Ok(())
}

// Of two leaves in a row both paths read the first one and leave the second.
#[test]
fn both_paths_read_the_first_leaf(rt: HostRuntime) -> Result<(), Fail> {
    both_paths_agree::<Leaf, &[u8]>();
    let alloc = rt.alloc();
    let leaves = [0, 1, 1, 7, 0, 2, 0].as_slice();
    let (found, rest) = Leaf::tls_deserialize_bytes(alloc, leaves)?;
    same(&rt, found.code, 1);
    same(&rt, rest, [0, 2, 0].as_slice());
    let mut source = leaves;
    holds(&rt, Leaf::tls_deserialize(alloc, &mut source)? == found);
    same(&rt, source, [0, 2, 0].as_slice());
    Ok(())
}

// At most 255 bytes come after one byte of length. Units are written as no bytes, which are read as an
// empty list.
#[test]
fn lists_that_fit_are_written_and_read(rt: HostRuntime) -> Result<(), Fail> {
    lists_are_spelled_where_their_elements_fit::<u8, u16>();
    shortest_contents_are_in_a_row::<u16>();
    contents_out_of_bounds_are_not_sent::<u8, u16>();
    encoders_refuse_only_what_has_no_form::<TlsVecU8<u16>, Vec<u8>>();
    each_value_is_full::<u8>();
    full_values_have_full_parts::<u8, (), u16, Leaf>();
    let alloc = rt.alloc();
    let list = TlsVecU8::new(vec![in alloc; 7u16; 127]?);
    let form = list.tls_serialize_detached(alloc)?;
    same(&rt, form.len(), 255);
    holds(
        &rt,
        TlsVecU8::tls_deserialize_exact_bytes(alloc, &form)? == list,
    );
    let long = TlsVecU8::new(vec![in alloc; 7u16; 128]?);
    same(
        &rt,
        long.tls_serialize_detached(alloc).err(),
        Some(Error::InvalidVectorLength),
    );
    let units = TlsVecU8::new(vec![in alloc; (); 2]?);
    same(
        &rt,
        units.tls_serialize_detached(alloc)?.as_slice(),
        [0].as_slice(),
    );
    holds(
        &rt,
        TlsVecU8::<()>::tls_deserialize_exact_bytes(alloc, &[0])?.is_empty(),
    );
    Ok(())
}

#[test]
fn equal_bytes_are_written_alike(rt: HostRuntime) -> Result<(), Fail> {
    equal_bytes_have_equal_spellings::<u16>();
    let alloc = rt.alloc();
    let bytes = TlsByteVecU16::from_slice(alloc, &[5, 6])?;
    let list = TlsVecU16::from_slice(alloc, &[5u8, 6])?;
    let form = [0, 2, 5, 6].as_slice();
    same(&rt, bytes.tls_serialize_detached(alloc)?.as_slice(), form);
    same(&rt, list.tls_serialize_detached(alloc)?.as_slice(), form);
    Ok(())
}

fn expect_all_alike<T: Eq + Hash>(rt: &impl Abort, one: &T, other: &T) {
    holds(rt, one == other);
    same(rt, hash_of(one), hash_of(other));
}

// One of each pair grew element by element.
#[test]
fn equal_vectors_are_hashed_alike(rt: HostRuntime) -> Result<(), Fail> {
    equal_vectors_have_equal_hashes::<u8, VLBytes>();
    equal_secret_vectors_have_equal_hashes::<u8, u16>();
    equal_byte_vectors_have_equal_hashes::<u16>();
    let alloc = rt.alloc();
    let mut list = TlsVecU8::from_slice(alloc, &[1u16])?;
    list.push(2)?;
    expect_all_alike(&rt, &list, &TlsVecU8::from_slice(alloc, &[1, 2])?);
    let mut secret = SecretTlsVecU8::from_slice(alloc, &[1u16])?;
    secret.push(2)?;
    expect_all_alike(&rt, &secret, &SecretTlsVecU8::from_slice(alloc, &[1, 2])?);
    let mut bytes = VLBytes::from_slice(alloc, &[1])?;
    bytes.push(2)?;
    expect_all_alike(&rt, &bytes, &VLBytes::from_slice(alloc, &[1, 2])?);
    let mut secret = SecretVLBytes::from_slice(alloc, &[1])?;
    secret.push(2)?;
    expect_all_alike(&rt, &secret, &SecretVLBytes::from_slice(alloc, &[1, 2])?);
    Ok(())
}

// The first byte in which they differ decides. If there is none, the shorter one is less.
#[test]
fn byte_vectors_have_the_order_of_their_bytes(rt: HostRuntime) -> Result<(), Fail> {
    byte_vectors_are_ordered_as_lists_of_bytes();
    let alloc = rt.alloc();
    for (low, high) in [
        ([].as_slice(), [0].as_slice()),
        (&[0], &[0, 0]),
        (&[0, 0xff], &[1]),
        (&[1, 0], &[1, 1]),
    ] {
        holds(
            &rt,
            VLBytes::from_slice(alloc, low)? < VLBytes::from_slice(alloc, high)?,
        );
        holds(
            &rt,
            VLByteVec::from_slice(alloc, low)? < VLByteVec::from_slice(alloc, high)?,
        );
    }
    Ok(())
}
