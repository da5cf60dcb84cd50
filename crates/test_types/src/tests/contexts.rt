//! Parts that an earlier part or a context decides, and values inside a length.
ghost use Rattle.tls_codec.specs.OwnMessages.{is_number};

use super::each_call::expect_written;
use crate::tests::same;
use std::alloc::Global;
use std::marker::PhantomData;
use std::process::Abort;
use std::test::Fail;
use tls_codec::context::{append_enclosed, read_enclosed, split_enclosed, write_enclosed};
use tls_codec::{
    Always, ByRef, ByRefThen, ByRefThen2, ByRefWhen, Condition, Deserialize, DeserializeBytes,
    DeserializeBytesFor, DeserializeFor, Error, Serialize, SerializeFor, Size, SizeFor, Then, When,
    laws, lists,
};

const DOES_NOT_FIT: Error = Error::EncodingError("value does not fit its context");

// The context is 1.
#[derive(Drop)]
struct IsOne;

impl Condition<u8> for IsOne {
    ghost holds = { is_number 1 };

    fn test(context: &u8) -> bool {
        *context == 1
    }
}

type Short = When<IsOne, u16>;

// A payload, or none, as it is written.
fn borrowed(value: &Option<u16>) -> ByRefWhen<'_, IsOne, u16> {
    ByRefWhen {
        value,
        condition: PhantomData,
    }
}

// By both decoders these bytes are this context and this payload.
fn expect_read(
    rt: &impl Abort,
    alloc: Global,
    bytes: &[u8],
    first: u8,
    payload: Option<u16>,
) -> Result<(), Fail> {
    let pair = <Then<u8, Short>>::tls_deserialize_exact(alloc, bytes)?;
    same(rt, (pair.first, pair.rest.value), (first, payload));
    let pair = <Then<u8, Short>>::tls_deserialize_exact_bytes(alloc, bytes)?;
    same(rt, (pair.first, pair.rest.value), (first, payload));
    Ok(())
}

#[test]
fn a_first_part_decides_the_rest(rt: HostRuntime) -> Result<(), Fail> {
    let alloc = rt.alloc();
    expect_read(&rt, alloc, &[1, 0, 7], 1, Some(7))?;
    expect_read(&rt, alloc, &[2], 2, None)?;
    expect_written(
        &rt,
        alloc,
        &ByRefThen {
            first: &1u8,
            rest: borrowed(&Some(7)),
        },
        &[1, 0, 7],
    )?;
    expect_written(
        &rt,
        alloc,
        &ByRefThen {
            first: &2u8,
            rest: borrowed(&None),
        },
        &[2],
    )?;
    let short = <Then<u8, Short>>::tls_deserialize_exact_bytes(alloc, &[1, 0]);
    same(&rt, short.err(), Some(Error::EndOfStream));
    let long = <Then<u8, Short>>::tls_deserialize_exact_bytes(alloc, &[2, 0]);
    same(&rt, long.err(), Some(Error::TrailingData));
    Ok(())
}

#[test]
fn values_that_do_not_fit_are_not_written(rt: HostRuntime) -> Result<(), Fail> {
    let alloc = rt.alloc();
    let mut out = [0xeeu8].to_vec(alloc)?;
    let missing = ByRefThen {
        first: &1u8,
        rest: borrowed(&None),
    };
    same(&rt, missing.tls_serialize_into(&mut out), Err(DOES_NOT_FIT));
    let too_much = ByRefThen {
        first: &2u8,
        rest: borrowed(&Some(7)),
    };
    same(
        &rt,
        too_much.tls_serialize_into(&mut out),
        Err(DOES_NOT_FIT),
    );
    same(&rt, out.as_slice(), [0xeeu8].as_slice());
    Ok(())
}

#[test]
fn whether_a_payload_fits_is_told_beforehand(rt: HostRuntime) {
    let there = Short {
        value: Some(7),
        condition: PhantomData,
    };
    same(&rt, (there.fits(&1u8), there.fits(&2u8)), (true, false));
    let none = None;
    same(
        &rt,
        (borrowed(&none).fits(&1u8), borrowed(&none).fits(&2u8)),
        (false, true),
    );
}

#[test]
fn parts_are_in_one_context(rt: HostRuntime) -> Result<(), Fail> {
    let alloc = rt.alloc();
    let pair = <Then<u8, (Always<u8>, Short)>>::tls_deserialize_exact_bytes(alloc, &[1, 9, 0, 7])?;
    same(&rt, (pair.rest.0.0, pair.rest.1.value), (9, Some(7)));
    let payload = Some(7);
    let borrowed_pair = ByRefThen2 {
        first: &1u8,
        second: ByRef(&9u8),
        third: borrowed(&payload),
    };
    same(&rt, borrowed_pair.tls_serialized_len(), 4);
    let mut out = Vec::new(alloc);
    same(&rt, borrowed_pair.tls_serialize_into(&mut out), Ok(4));
    same(&rt, out.as_slice(), [1, 9, 0, 7].as_slice());
    let bytes = [9, 0, 7, 8];
    let triple = <(Always<u8>, Short, Always<u8>)>::tls_deserialize_exact_bytes_for(
        &1u8, alloc, &bytes,
    )?;
    same(
        &rt,
        (triple.0.0, triple.1.value, triple.2.0),
        (9, Some(7), 8),
    );
    let triple = <(Always<u8>, Short, Always<u8>)>::tls_deserialize_exact_for(&1u8, alloc, &bytes)?;
    same(
        &rt,
        (triple.0.0, triple.1.value, triple.2.0),
        (9, Some(7), 8),
    );
    Ok(())
}

#[test]
fn a_length_encloses_a_value(rt: HostRuntime) -> Result<(), Fail> {
    let alloc = rt.alloc();
    let bytes = [2, 0, 7, 0xee];
    let (value, rest) = split_enclosed::<u8, u8, Short>(&1u8, alloc, &bytes)?;
    same(&rt, (value.value, rest.len()), (Some(7), 1));
    let mut source = bytes.as_slice();
    let value = read_enclosed::<u8, u8, Short, &[u8]>(&1u8, alloc, &mut source)?;
    same(&rt, (value.value, source.len()), (Some(7), 1));
    let mut out = Vec::new(alloc);
    let payload = Some(7);
    let value = borrowed(&payload);
    same(
        &rt,
        write_enclosed::<u8, u8, ByRefWhen<IsOne, u16>, Vec<u8>>(&1u8, &value, &mut out),
        Ok(3),
    );
    same(
        &rt,
        append_enclosed::<u8, u16, ByRefWhen<IsOne, u16>>(&1u8, &value, &mut out),
        Ok(4),
    );
    same(&rt, out.as_slice(), [2u8, 0, 7, 0, 2, 0, 7].as_slice());
    Ok(())
}

#[test]
fn lengths_that_do_not_fit_are_refused(rt: HostRuntime) -> Result<(), Fail> {
    let alloc = rt.alloc();
    for (bytes, error) in [
        ([3, 0, 7, 0xee].as_slice(), Error::TrailingData),
        (&[1, 0, 7], Error::EndOfStream),
        (&[2, 0], Error::EndOfStream),
        (&[], Error::EndOfStream),
    ] {
        let split = split_enclosed::<u8, u8, Short>(&1u8, alloc, bytes);
        same(&rt, split.err(), Some(error));
        let mut source = bytes;
        let read = read_enclosed::<u8, u8, Short, &[u8]>(&1u8, alloc, &mut source);
        same(&rt, read.err(), Some(error));
    }
    Ok(())
}

type Entry = (Always<u8>, Short);

// Two entries, in the context 1 and in another.
const IN_ONE: [u8; 6] = [9, 0, 7, 8, 0, 6];

const IN_TWO: [u8; 2] = [9, 8];

// By both engines the elements in this context that fill these bytes have these payloads.
fn expect_elements(
    rt: &impl Abort,
    alloc: Global,
    context: u8,
    bytes: &[u8],
    payloads: [Option<u16>; 2],
) -> Result<(), Fail> {
    let mut turns = lists::Turns::new();
    let (found, rest) = lists::from_slice_for::<u8, Entry>(
        &context,
        alloc,
        bytes,
        bytes.len(),
        &mut turns,
    )?;
    assert!(rt; found.len() == 2 && rest.is_empty() && turns.count() == 2);
    same(rt, [found[0].1.value, found[1].1.value], payloads);
    let mut source = bytes;
    let found = lists::from_reader_for::<u8, Entry, &[u8]>(
        &context,
        alloc,
        &mut source,
        bytes.len(),
        &mut turns,
    )?;
    assert!(rt; found.len() == 2 && source.is_empty() && turns.count() == 4);
    same(rt, [found[0].1.value, found[1].1.value], payloads);
    Ok(())
}

#[test]
fn elements_are_read_in_a_context(rt: HostRuntime) -> Result<(), Fail> {
    let alloc = rt.alloc();
    expect_elements(&rt, alloc, 1, &IN_ONE, [Some(7), Some(6)])?;
    expect_elements(&rt, alloc, 2, &IN_TWO, [None, None])?;
    let mut turns = lists::Turns::new();
    let cut = lists::from_slice_for::<u8, Entry>(&1, alloc, &IN_ONE, 5, &mut turns);
    let not_filled = Error::DecodingError("elements do not fill the declared length");
    same(&rt, (cut.err(), turns.count()), (Some(not_filled), 2));
    let empty = lists::from_slice_for::<u8, Short>(&2, alloc, &IN_TWO, 2, &mut turns);
    let no_bytes = Error::DecodingError("vector element consumed 0 bytes");
    same(&rt, empty.err(), Some(no_bytes));
    Ok(())
}

type ByRefShort<'a> = ByRefWhen<'a, IsOne, u16>;

// In the context 1 the elements are written as these bytes, and in another they are rejected.
fn expect_all_written(
    rt: &impl Abort,
    alloc: Global,
    elements: &[ByRefShort<'_>],
    bytes: &[u8],
) -> Result<(), Fail> {
    same(rt, lists::content_len_for(&1u8, elements), Ok(bytes.len()));
    let mut out = Vec::new(alloc);
    same(
        rt,
        lists::write_for(&1u8, &mut out, elements),
        Ok(bytes.len()),
    );
    same(rt, out.as_slice(), bytes);
    same(
        rt,
        lists::append_for(&2u8, &mut out, elements),
        Err(DOES_NOT_FIT),
    );
    same(rt, out.as_slice(), bytes);
    let mut appended = Vec::new(alloc);
    same(
        rt,
        lists::append_for(&1u8, &mut appended, elements),
        Ok(bytes.len()),
    );
    same(rt, appended.as_slice(), bytes);
    Ok(())
}

#[test]
fn elements_are_written_in_a_context(rt: HostRuntime) -> Result<(), Fail> {
    let (seven, six) = (Some(7), Some(6));
    expect_all_written(
        &rt,
        rt.alloc(),
        &[borrowed(&seven), borrowed(&six)],
        &[0, 7, 0, 6],
    )
}

#[test]
fn lists_are_read_in_a_context(rt: HostRuntime) -> Result<(), Fail> {
    let alloc = rt.alloc();
    let bytes = [1, 6, 9, 0, 7, 8, 0, 6];
    let read = <Then<u8, Vec<Entry>>>::tls_deserialize_exact(alloc, &bytes)?;
    same(&rt, (read.first, read.rest.len()), (1, 2));
    let read = <Then<u8, Vec<Entry>>>::tls_deserialize_exact_bytes(alloc, &bytes)?;
    assert!(rt; read.rest.len() == 2);
    same(
        &rt,
        [read.rest[0].1.value, read.rest[1].1.value],
        [Some(7), Some(6)],
    );
    let lists = <Then<u8, Vec<Vec<Entry>>>>::tls_deserialize_exact_bytes(alloc, &[2, 3, 2, 5, 4])?;
    assert!(rt; lists.rest.len() == 1);
    same(&rt, lists.rest[0].len(), 2);
    Ok(())
}

// In the context 1 the list is written as these bytes.
fn expect_written_as_a_list(
    rt: &impl Abort,
    alloc: Global,
    elements: &Vec<ByRefShort<'_>>,
    bytes: &[u8],
) -> Result<(), Fail> {
    same(rt, elements.tls_serialized_len_for(&1u8), bytes.len());
    let mut out = Vec::new(alloc);
    same(
        rt,
        elements.tls_serialize_for(&1u8, &mut out),
        Ok(bytes.len()),
    );
    same(rt, out.as_slice(), bytes);
    let mut appended = Vec::new(alloc);
    same(
        rt,
        elements.tls_serialize_into_for(&1u8, &mut appended),
        Ok(bytes.len()),
    );
    same(rt, appended.as_slice(), bytes);
    Ok(())
}

#[test]
fn lists_are_written_in_a_context(rt: HostRuntime) -> Result<(), Fail> {
    let alloc = rt.alloc();
    let seven = Some(7);
    let mut elements = Vec::new(alloc);
    elements.push(borrowed(&seven))?;
    expect_written_as_a_list(&rt, alloc, &elements, &[2, 0, 7])
}

// What the laws say of types they say of a context and a value in it.
#[test]
fn the_laws_hold_in_contexts(rt: HostRuntime) -> Result<(), Fail> {
    laws::contexts_are_lawful::<u8, Short, u16>();
    laws::spellings_are_prefix_free::<Then<u8, Short>>();
    laws::both_paths_agree::<Then<u8, Short>, &[u8]>();
    expect_read(&rt, rt.alloc(), &[1, 1, 2], 1, Some(0x0102))
}
