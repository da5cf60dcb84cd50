//! `TlsVarInt`, the variable-length integer (varint) in its least width (RFC 9000, section 16;
//! RFC 9420, section 2.1.2).
ghost use Rattle.std.specs.Prelude.{◌^◌};
ghost use Rattle.tls_codec_wire.specs.Numbers.{NumberNotRead};
ghost use Rattle.tls_codec_wire.specs.VarintCalls.{RefusesBelow};
ghost use Rattle.tls_codec_wire.specs.VarintValue.{number_of};
ghost use Rattle.tls_codec_grammar.specs.Tree.{Number};
ghost use Rattle.tls_codec_grammar.specs.Format.{varint_format};
ghost use Rattle.tls_codec_grammar.specs.laws.FormatLaws.{varint_meets};

use crate::traits::{Deserialize, DeserializeBytes, Serialize, SerializeBytes, Size};
use std::alloc::Global;
use tls_codec_wire::quic::{read_varint, split_varint, varint_width, write_varint};
use tls_codec_wire::{Error, Sink, Source, TlsVarInt};

impl Size for TlsVarInt {
    ghost plain = { λ n. Number (number_of n) };

    ghost format = { varint_format };

    fn tls_serialized_len(&self) -> usize {
        varint_width(self.value())
    }

    ghost lawful = { varint_meets };
}

impl Serialize for TlsVarInt {
    fn tls_serialize<W: Sink>(&self, writer: &mut W) -> Result<usize, Error> {
        write_varint(writer, *self)
    }
}

impl SerializeBytes for TlsVarInt {
    fn tls_serialize_bytes(&self, alloc: Global) -> Result<Vec<u8>, Error> {
        self.tls_serialize_detached(alloc)
    }
}

impl Deserialize for TlsVarInt {
    ghost names = { NumberNotRead (RefusesBelow (2 ^ 62)) };

    /// `EndOfStream`: fewer bytes come than the first one asks for, or none. `InvalidVectorLength`: the
    /// number has more bytes than it needs.
    fn tls_deserialize<R: Source>(_alloc: Global, bytes: &mut R) -> Result<TlsVarInt, Error> {
        let n = read_varint(bytes)?;
        Ok(n)
    }
}

impl DeserializeBytes for TlsVarInt {
    ghost names = { RefusesBelow (2 ^ 62) };

    /// `EndOfStream`: there are fewer bytes than the first one asks for, or none. `InvalidVectorLength`:
    /// the number has more bytes than it needs.
    fn tls_deserialize_bytes(_alloc: Global, bytes: &[u8]) -> Result<(TlsVarInt, &[u8]), Error> {
        split_varint(bytes)
    }
}
