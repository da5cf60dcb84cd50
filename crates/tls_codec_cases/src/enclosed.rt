//! [`Enclosed`], a value that fills what a length counts.
ghost use Rattle.tls_codec_grammar.specs.Inside.{enclosed_format};
ghost use Rattle.tls_codec_grammar.specs.laws.InsideLaws.{enclosed_meets, inside_meets};
ghost use Rattle.tls_codec_base.specs.ContextNames.{enclosed_names, enclosed_source_names};

use std::alloc::Global;
use std::marker::PhantomData;
use tls_codec_base::context::{read_enclosed, split_enclosed};
use tls_codec_base::{Always, Deserialize, DeserializeBytes, LengthField, Serialize, Size};
use tls_codec_grammar::length_field::write_length;
use tls_codec_wire::{Error, Sink, Source};

/// A value after its length `F`, which it fills, as the body of an extension (RFC 8446, section 4.2).
///
/// `TrailingData`: a value was read, and a byte is left of what the length counts.
/// `InvalidVectorLength`: the field doesn't hold the number of the value's bytes, and nothing was
/// sent. Every other error is the length's or the value's.
#[derive(PartialEq, Drop)]
pub struct Enclosed<F, T>(pub T, pub PhantomData<F>);

impl<F: LengthField, T: Size> Size for Enclosed<F, T> {
    ghost plain = { λ v. T.plain v.0 };

    ghost format = { enclosed_format F.field T.format };

    fn tls_serialized_len(&self) -> usize {
        let length = self.0.tls_serialized_len();
        F::width(length).saturating_add(length)
    }

    ghost lawful = { enclosed_meets F.lawful (inside_meets T.lawful) };
}

impl<F: LengthField, T: Serialize> Serialize for Enclosed<F, T> {
    fn tls_serialize<W: Sink>(&self, writer: &mut W) -> Result<usize, Error> {
        let length = self.0.tls_serialized_len();
        let width = write_length::<F, W>(writer, length)?;
        let sent = self.0.tls_serialize(writer)?;
        Ok(sent.saturating_add(width))
    }
}

impl<F: LengthField, T: Deserialize> Deserialize for Enclosed<F, T> {
    ghost names = { enclosed_source_names F.field T.format T.names };

    fn tls_deserialize<R: Source>(alloc: Global, src: &mut R) -> Result<Enclosed<F, T>, Error> {
        let value = read_enclosed::<(), F, Always<T>, R>(&(), alloc, src)?;
        Ok(Enclosed(value.0, PhantomData))
    }
}

impl<F: LengthField, T: DeserializeBytes> DeserializeBytes for Enclosed<F, T> {
    ghost names = { enclosed_names F.field T.format T.names };

    fn tls_deserialize_bytes(
        alloc: Global,
        whole: &[u8],
    ) -> Result<(Enclosed<F, T>, &[u8]), Error> {
        let (value, rest) = split_enclosed::<(), F, Always<T>>(&(), alloc, whole)?;
        Ok((Enclosed(value.0, PhantomData), rest))
    }
}
