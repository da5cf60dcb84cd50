//! The laws over types. Each is called at one type, next to what it says of some bytes.
use crate::tests::{holds, same};
use std::alloc::Global;
use std::process::Abort;
use std::test::Fail;
use tls_codec::{
    Deserialize, DeserializeBytes, Error, SecretTlsVecU8, SecretVLByteVec, SecretVLBytes, Size,
    TlsByteVecU16, TlsSliceU16, TlsVarInt, TlsVecU8, TlsVecU16, U24, VLByteVec, VLBytes, equality,
    error_laws, types,
};

// Both paths read equal values of these bytes.
fn expect_equal_however_read<T: Deserialize + DeserializeBytes + PartialEq>(
    rt: &impl Abort,
    alloc: Global,
    bytes: &[u8],
) -> Result<(), Fail> {
    let (split, _) = T::tls_deserialize_bytes(alloc, bytes)?;
    let mut source = bytes;
    holds(rt, T::tls_deserialize(alloc, &mut source)? == split);
    Ok(())
}

#[test]
fn values_that_stand_for_one_tree_are_equal(rt: HostRuntime) -> Result<(), Fail> {
    equality::single_values_are_equal_where_alike::<3>();
    equality::bytes_are_equal_where_alike::<u16>();
    equality::bytes_of_any_name_are_equal_where_alike::<u16>();
    tls_codec_vl::laws::byte_vectors_are_compared_by_their_bytes::<u16>();
    tls_codec_vl::laws::secret_byte_vectors_are_compared_by_their_bytes::<u16>();
    equality::parts_are_equal_where_alike::<u8, U24, String>();
    equality::lists_are_equal_where_alike::<u8, u16>();
    tls_codec_vec::laws::vectors_are_compared_by_their_elements::<u8, u16>();
    tls_codec_vec::laws::vectors_are_hashed_by_their_elements::<u8, u16>();
    tls_codec_bytes::laws::byte_vecs_are_compared_by_their_bytes::<u16>();
    tls_codec_secret::laws::secret_vectors_are_compared_by_their_elements::<u8, u16>();
    tls_codec_secret::laws::secret_vectors_are_hashed_by_their_elements::<u8, u16>();
    let alloc = rt.alloc();
    expect_equal_however_read::<(u8, U24, String)>(&rt, alloc, &[7, 1, 0, 0x49, 2, 0xc3, 0xa9])?;
    expect_equal_however_read::<Option<[u8; 3]>>(&rt, alloc, &[1, 7, 8, 9])?;
    expect_equal_however_read::<Vec<TlsVarInt>>(&rt, alloc, &[3, 0x40, 0x40, 0x25])?;
    expect_equal_however_read::<(VLBytes, VLByteVec)>(&rt, alloc, &[1, 7, 1, 8])?;
    expect_equal_however_read::<(SecretVLBytes, SecretVLByteVec)>(&rt, alloc, &[1, 7, 1, 8])?;
    expect_equal_however_read::<(TlsVecU8<u16>, SecretTlsVecU8<u16>)>(
        &rt,
        alloc,
        &[2, 0, 7, 2, 0, 8],
    )?;
    expect_equal_however_read::<TlsByteVecU16>(&rt, alloc, &[0, 1, 7])
}

#[test]
fn types_are_as_the_table_has_them(rt: HostRuntime) -> Result<(), Fail> {
    types::arrays::<3>();
    types::options::<u16>();
    types::pairs::<u8, u16>();
    types::triples::<u8, U24, String>();
    types::nothing::<u8>();
    types::boxes::<u16>();
    types::lists::<u16>();
    types::vectors::<u16, u8>();
    types::slices::<u16>();
    types::counted_bytes::<u16>();
    types::byte_vectors_of_any_name::<u16>();
    tls_codec_vl::laws::conversions_and_copies_keep_the_bytes::<u16>();
    tls_codec_vl::laws::cleared_byte_vectors_are_empty::<u16>();
    tls_codec_vec::laws::vectors_are_lists_after_lengths_of_one_to_four_bytes::<u16>();
    tls_codec_vec::laws::conversions_keep_the_elements::<u8, u16>();
    tls_codec_vec::laws::places_give_their_elements::<u8, u16>();
    tls_codec_bytes::laws::conversions_keep_the_bytes::<u16>();
    tls_codec_bytes::laws::places_give_their_bytes::<u16>();
    tls_codec_slice::laws::copies_are_equal::<u16>();
    tls_codec_secret::laws::secret_vectors_are_lists_after_lengths_of_one_to_four_bytes::<u16>();
    tls_codec_secret::laws::conversions_keep_the_elements::<u8, u16>();
    tls_codec_secret::laws::places_give_their_elements::<u8, u16>();
    tls_codec_secret::laws::cleared_secret_vectors_are_empty::<u8, u16>();
    tls_codec_vl::laws::cleared_values_hold_nothing::<3, u16>();
    let alloc = rt.alloc();
    same(&rt, [7u8; 3].tls_serialized_len(), 3);
    same(&rt, Some(7u16).tls_serialized_len(), 3);
    let list = TlsVecU16::new([7u16, 8].to_vec(alloc)?);
    same(&rt, list.tls_serialized_len(), 6);
    same(&rt, list[1], 8);
    same(&rt, TlsSliceU16(list.as_slice()).tls_serialized_len(), 6);
    Ok(())
}

#[test]
fn trailing_data_is_of_exact_forms_alone(rt: HostRuntime) -> Result<(), Fail> {
    error_laws::single_values_are_never_trailing::<3>();
    error_laws::bytes_are_never_trailing::<u16>();
    error_laws::parts_are_never_trailing::<u16, u8, U24, String>();
    error_laws::parts_read_are_never_trailing::<u16, u8, U24, String>();
    error_laws::contents_out_of_bounds_are_refused::<u8, u16>();
    let alloc = rt.alloc();
    let longer = [1, 0, 7, 9];
    let (found, rest) = <Option<u16>>::tls_deserialize_bytes(alloc, &longer)?;
    same(&rt, found, Some(7));
    same(&rt, rest, [9].as_slice());
    let found = <Option<u16>>::tls_deserialize_exact_bytes(alloc, &longer);
    same(&rt, found, Err(Error::TrailingData));
    let found = <Option<u16>>::tls_deserialize_exact(alloc, &longer);
    same(&rt, found, Err(Error::TrailingData));
    Ok(())
}
