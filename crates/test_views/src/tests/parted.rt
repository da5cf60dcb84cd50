//! A struct of your own, and its fields in place, as docs/OWN_MESSAGES.md has them.
ghost use Rattle.tls_codec.specs.OwnMessages.{bytes_format, bytes_meets, number_format, number_trees, pair_format, pair_meets, pair_tree, u16_meets, Number};
ghost use Rattle.tls_codec.specs.Contents.{bytes_of};

use crate::tests::{NOT_THERE, encoded, same};
use std::alloc::Global;
use tls_codec::{ByRef, DeserializeBytes, Error, Size, VLBytes};
use tls_codec_validate::{Rejected, Validate};
use tls_codec_views::{Encoded, Parted};

#[derive(Drop)]
pub struct Named {
    pub code: u16,
    pub name: VLBytes,
}

type Parts = (u16, VLBytes);

impl Size for Named {
    ghost plain = { λ v. pair_tree (Number v.code) (number_trees (bytes_of v.name)) };

    ghost format = { pair_format (number_format 2) bytes_format };

    fn tls_serialized_len(&self) -> usize {
        (ByRef(&self.code), ByRef(&self.name)).tls_serialized_len()
    }

    ghost lawful = { pair_meets u16_meets bytes_meets };
}

impl DeserializeBytes for Named {
    ghost names = { ⟦<Parts as DeserializeBytes>⟧.names };

    fn tls_deserialize_bytes(alloc: Global, whole: &[u8]) -> Result<(Named, &[u8]), Error> {
        let ((code, name), rest) = <Parts>::tls_deserialize_bytes(alloc, whole)?;
        Ok((Named { code, name }, rest))
    }
}

impl Validate for Named {
    ghost places = { ⟦<Parts as Validate>⟧.places };

    fn tls_validate_prefix(whole: &[u8]) -> Result<&[u8], Rejected<'_>> {
        <Parts>::tls_validate_prefix(whole)
    }
}

impl Parted for Named {
    type Parts = Parts;

    ghost as_parts = { λ bytes is. is };
}

#[test]
fn fields_in_place(rt: HostRuntime) {
    let (code, name) = encoded::<Named>(&rt, &[0, 7, 2, 8, 9]).parts().split();
    same(&rt, code.get(), 7);
    same(&rt, name.content(), [8u8, 9].as_slice());
    let rejected = Rejected {
        error: NOT_THERE,
        rest: &[2, 8],
    };
    same(
        &rt,
        Encoded::<Named>::new(&[0, 7, 2, 8]).err(),
        Some(rejected),
    );
}
