//! Encoders into one buffer, and a type that has no encoding for any value.
ghost use Rattle.std.specs.Prelude.{◌≡◌, true};
ghost use Rattle.tls_codec.specs.Errors.{InvalidInput};
ghost use Rattle.tls_codec.specs.OwnMessages.{Empty};

use crate::tests::same;
use std::alloc::Global;
use std::test::Fail;
use tls_codec::{Error, Serialize, SerializeBytes, Sink, Size, lists, reserve_encoding};

// No bytes encode it, and more bytes are announced than there are.
#[derive(Drop)]
struct Huge;

impl Size for Huge {
    ghost plain = { λ _. Empty };

    ghost format = { record {
      spells = λ d b v. ⊥;
      announced = λ v. 0xffff_ffff_ffff_ffff;
      lean = true;
      refuses = λ v e. e ≡ InvalidInput;
      out_of_bounds = λ v. ⊥;
    } };

    fn tls_serialized_len(&self) -> usize {
        usize::MAX
    }

    ghost lawful = { record {
      spelled = record {
        one = λ s t x y v w p q e. absurd p;
        alone = λ s t v p q. absurd p;
        written = λ s v p. p;
        announces = λ s v p. absurd p;
      };
      unspelled = λ v e p s q. q;
      not_memory = λ v p. Prim.cc;
      outside = λ v p. absurd p;
    } };
}

impl Serialize for Huge {
    fn tls_serialize<W: Sink>(&self, _writer: &mut W) -> Result<usize, Error> {
        Err(Error::InvalidInput)
    }
}

impl SerializeBytes for Huge {
    fn tls_serialize_bytes(&self, _alloc: Global) -> Result<Vec<u8>, Error> {
        Err(Error::InvalidInput)
    }
}

#[test]
fn lists_longer_than_any_length(rt: HostRuntime) -> Result<(), Fail> {
    let too_long = Err(Error::InvalidVectorLength);
    let list = [Huge, Huge];
    same(&rt, list.as_slice().tls_serialized_len(), usize::MAX);
    same(&rt, lists::content_len(&list), too_long);
    let mut out = [0xaa, 0xbb].to_vec(rt.alloc())?;
    same(&rt, list.as_slice().tls_serialize(&mut out), too_long);
    same(&rt, out.as_slice(), [0xaa, 0xbb].as_slice());
    let refused = Err(Error::InvalidInput);
    same(&rt, list.as_slice().tls_serialize_into(&mut out), refused);
    same(&rt, out.as_slice(), [0xaa, 0xbb].as_slice());
    Ok(())
}

// What comes before the rejected part has been sent.
#[test]
fn a_refused_part_comes_after_what_was_sent(rt: HostRuntime) {
    let mut sink = Vec::new(rt.alloc());
    same(
        &rt,
        (7u8, Huge).tls_serialize(&mut sink),
        Err(Error::InvalidInput),
    );
    same(&rt, sink.as_slice(), [7].as_slice());
}

#[test]
fn a_refused_element_leaves_the_vector(rt: HostRuntime) -> Result<(), Fail> {
    let alloc = rt.alloc();
    let refused = Err(Error::InvalidInput);
    let list = [None, Some(Huge)];
    let mut out = [0xaa, 0xbb].to_vec(alloc)?;
    same(&rt, lists::append(&mut out, &list), refused);
    same(&rt, out.as_slice(), [0xaa, 0xbb].as_slice());
    same(&rt, lists::append_bytes(alloc, &mut out, &list), refused);
    same(&rt, out.as_slice(), [0xaa, 0xbb].as_slice());
    same(&rt, (7u8, Huge).tls_serialize_into(&mut out), refused);
    same(&rt, out.as_slice(), [0xaa, 0xbb].as_slice());
    same(&rt, (7u8, 8u8, Huge).tls_serialize_into(&mut out), refused);
    same(&rt, out.as_slice(), [0xaa, 0xbb].as_slice());
    Ok(())
}

// What a refused request leaves is a row of `test_memory`.
#[test]
fn a_triple_is_appended(rt: HostRuntime) -> Result<(), Fail> {
    let mut out = [0xaa, 0xbb].to_vec(rt.alloc())?;
    let count = (7u8, [1u16, 2].as_slice(), "é").tls_serialize_into(&mut out);
    same(&rt, count, Ok(9));
    let whole = [0xaa, 0xbb, 7, 4, 0, 1, 0, 2, 2, 0xc3, 0xa9];
    same(&rt, out.as_slice(), whole.as_slice());
    Ok(())
}

#[test]
fn engines_append(rt: HostRuntime) -> Result<(), Fail> {
    let mut out = [0xee].to_vec(rt.alloc())?;
    same(&rt, lists::append(&mut out, &[1u16, 2]), Ok(4));
    same(
        &rt,
        lists::append_bytes(rt.alloc(), &mut out, &[Some(3u8), None]),
        Ok(3),
    );
    same(&rt, out.as_slice(), [0xee, 0, 1, 0, 2, 1, 3, 0].as_slice());
    Ok(())
}

#[test]
fn room_is_requested_at_once(rt: HostRuntime) -> Result<(), Fail> {
    let mut out = Vec::new(rt.alloc());
    reserve_encoding(&(7u16, 8u32), &mut out)?;
    same(&rt, out.capacity(), 6);
    reserve_encoding(&[0u64; 9].to_vec(rt.alloc())?, &mut out)?;
    same(&rt, out.capacity(), 6);
    Ok(())
}
