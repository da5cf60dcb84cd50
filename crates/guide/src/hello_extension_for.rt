//! [`HelloExtension`] where its type was read before: the type is its context, and no byte repeats it.
ghost use Rattle.guide.specs.HelloExtensions.{hello_extension_format_for, hello_extension_meets_for, hello_extension_plain};

use crate::hello_extension::{Extensions, HelloExtension};
use std::alloc::Global;
use tls_codec::{DeserializeBytesFor, DeserializeFor, Error, SerializeFor, Sink, SizeFor, Source};
use tls_codec_cases::{Chosen, append_as_for, write_as_for};

impl SizeFor<u16> for HelloExtension {
    ghost plain = { hello_extension_plain };

    ghost format_for = { hello_extension_format_for };

    fn tls_serialized_len_for(&self, type_read: &u16) -> usize {
        Chosen(self.cases()).tls_serialized_len_for(type_read)
    }

    ghost lawful = { hello_extension_meets_for };
}

/// `EncodingError("value does not fit its context")`: the extension is of another type.
impl SerializeFor<u16> for HelloExtension {
    fn tls_serialize_for<W: Sink>(&self, type_read: &u16, writer: &mut W) -> Result<usize, Error> {
        write_as_for(self, &Chosen(self.cases()), type_read, writer)
    }

    fn tls_serialize_into_for(&self, type_read: &u16, out: &mut Vec<u8>) -> Result<usize, Error> {
        append_as_for(self, &Chosen(self.cases()), type_read, out)
    }
}

impl DeserializeFor<u16> for HelloExtension {
    ghost names = { ⟦<Chosen<Extensions> as DeserializeFor<u16>>⟧.names };

    /// Every error is that of a field.
    fn tls_deserialize_for<R: Source>(
        type_read: &u16,
        alloc: Global,
        src: &mut R,
    ) -> Result<HelloExtension, Error> {
        let found = <Chosen<Extensions>>::tls_deserialize_for(type_read, alloc, src)?;
        Ok(HelloExtension::of(found.0))
    }
}

impl DeserializeBytesFor<u16> for HelloExtension {
    ghost names = { ⟦<Chosen<Extensions> as DeserializeBytesFor<u16>>⟧.names };

    /// Every error is that of a field.
    fn tls_deserialize_bytes_for<'a>(
        type_read: &u16,
        alloc: Global,
        bytes: &'a [u8],
    ) -> Result<(HelloExtension, &'a [u8]), Error> {
        let (found, rest) = <Chosen<Extensions>>::tls_deserialize_bytes_for(
            type_read, alloc, bytes,
        )?;
        Ok((HelloExtension::of(found.0), rest))
    }
}
