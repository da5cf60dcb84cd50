//! A message of vectors with bounds.
ghost use Rattle.std.proofs.Common.{arith};
ghost use Rattle.tls_codec.specs.Contents.{elements_of, fixed_bytes_of};
ghost use Rattle.tls_codec.specs.OwnMessages.{Empty, Join, Number, bounded_bytes_format, bounded_bytes_meets, bounded_list_format, bounded_list_meets, fields_format, fields_meets, nothing_format, nothing_meets, number_format, number_trees, trees, u16_meets};

use super::{Methods, OUTSIDE, Suites};
use crate::tests::each_call::{expect_encoded_as, expect_rejected, expect_too_long};
use std::alloc::Global;
use std::test::Fail;
use tls_codec::{ByRef, Deserialize, DeserializeBytes, Error, Serialize, Sink, Size, Source};

// `CipherSuite cipher_suites<2..2^16-2>; opaque legacy_compression_methods<1..2^8-1>;`
#[derive(PartialEq, Drop)]
struct Offer {
    suites: Suites,
    methods: Methods,
}

impl Size for Offer {
    ghost plain = { λ offer. Join (trees Number (elements_of offer.suites))
        (Join (number_trees (fixed_bytes_of offer.methods)) Empty) };

    ghost format = { fields_format (bounded_list_format 2 2 65534 (number_format 2))
        (fields_format (bounded_bytes_format 1 1 255) nothing_format) };

    fn tls_serialized_len(&self) -> usize {
        (ByRef(&self.suites), ByRef(&self.methods)).tls_serialized_len()
    }

    ghost lawful = { fields_meets (bounded_list_meets 2 2 65534 (Prim.omega arith) u16_meets)
        (fields_meets (bounded_bytes_meets 1 1 255 (Prim.omega arith)) nothing_meets) };
}

impl Serialize for Offer {
    fn tls_serialize<W: Sink>(&self, writer: &mut W) -> Result<usize, Error> {
        (ByRef(&self.suites), ByRef(&self.methods)).tls_serialize(writer)
    }

    fn tls_serialize_into(&self, out: &mut Vec<u8>) -> Result<usize, Error> {
        (ByRef(&self.suites), ByRef(&self.methods)).tls_serialize_into(out)
    }
}

impl Deserialize for Offer {
    ghost names = { ⟦<(Suites, Methods) as Deserialize>⟧.names };

    fn tls_deserialize<R: Source>(alloc: Global, src: &mut R) -> Result<Offer, Error> {
        let (suites, methods) = <(Suites, Methods)>::tls_deserialize(alloc, src)?;
        Ok(Offer { suites, methods })
    }
}

impl DeserializeBytes for Offer {
    ghost names = { ⟦<(Suites, Methods) as DeserializeBytes>⟧.names };

    fn tls_deserialize_bytes(alloc: Global, whole: &[u8]) -> Result<(Offer, &[u8]), Error> {
        let ((suites, methods), rest) = <(Suites, Methods)>::tls_deserialize_bytes(alloc, whole)?;
        Ok((Offer { suites, methods }, rest))
    }
}

#[test]
fn an_offer_of_one_suite(rt: HostRuntime) -> Result<(), Fail> {
    let alloc = rt.alloc();
    let suites = Suites::from_slice(alloc, &[0x1301])?;
    let methods = Methods::from_slice(alloc, &[0])?;
    let offer = Offer { suites, methods };
    expect_encoded_as(&rt, alloc, &offer, &[0, 2, 0x13, 0x01, 1, 0])
}

// Only the first field of an offer is sent before the encoder rejects the second.
#[test]
fn offers_out_of_bounds(rt: HostRuntime) -> Result<(), Fail> {
    let alloc = rt.alloc();
    let suites = Suites::from_slice(alloc, &[0x1301])?;
    let methods = Methods::default(alloc);
    let offer = Offer { suites, methods };
    expect_too_long(&rt, alloc, &offer, 5, &[0, 2, 0x13, 0x01])?;
    expect_rejected::<Offer>(&rt, alloc, &[0, 2, 0x13, 0x01, 0], OUTSIDE);
    expect_rejected::<Offer>(&rt, alloc, &[0, 0, 1, 0], OUTSIDE);
    Ok(())
}
