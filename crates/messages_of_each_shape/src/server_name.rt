//! [`ServerName`].
ghost use Rattle.std.specs.Prelude.{◌≡◌, ◌&&◌, ◌++◌};
ghost use Rattle.messages_of_each_shape.specs.ServerName.{server_name_format, server_name_meets, server_name_plain};
ghost use Rattle.messages_of_each_shape.specs.declared.server_name.ServerName.{ServerName};

use crate::{HostName, NameTypeHostName};
use std::alloc::Global;
use tls_codec::{ByRef, Deserialize, DeserializeBytes, Error, Serialize, Sink, Size, Source};
use tls_codec_cases::append_as;
use tls_codec_validate::{Rejected, Validate};
use tls_codec_views::{Encoded, Parted};

/// `ServerName`.
#[derive(PartialEq, Eq, Debug, Clone, Drop)]
pub struct ServerName {
    /// `NameType name_type;`
    pub name_type: NameTypeHostName,
    /// `HostName;`
    pub name: HostName,
}

type Parts = (NameTypeHostName, HostName);

impl Size for ServerName {
    ghost plain = { server_name_plain };

    ghost format = { server_name_format };

    fn tls_serialized_len(&self) -> usize {
        (ByRef(&self.name_type), ByRef(&self.name)).tls_serialized_len()
    }

    ghost lawful = { server_name_meets };
}

impl Serialize for ServerName {
    fn tls_serialize<W: Sink>(&self, writer: &mut W) -> Result<usize, Error> {
        (ByRef(&self.name_type), ByRef(&self.name)).tls_serialize(writer)
    }

    fn tls_serialize_into(&self, out: &mut Vec<u8>) -> Result<usize, Error> {
        append_as(self, &(ByRef(&self.name_type), ByRef(&self.name)), out)
    }
}

impl Deserialize for ServerName {
    ghost names = { ⟦<Parts as Deserialize>⟧.names };

    fn tls_deserialize<R: Source>(alloc: Global, src: &mut R) -> Result<ServerName, Error> {
        let (name_type, name) = <Parts>::tls_deserialize(alloc, src)?;
        Ok(ServerName { name_type, name })
    }
}

impl DeserializeBytes for ServerName {
    ghost names = { ⟦<Parts as DeserializeBytes>⟧.names };

    fn tls_deserialize_bytes(alloc: Global, whole: &[u8]) -> Result<(ServerName, &[u8]), Error> {
        let ((name_type, name), rest) = <Parts>::tls_deserialize_bytes(alloc, whole)?;
        Ok((ServerName { name_type, name }, rest))
    }
}

impl Validate for ServerName {
    ghost places = { ⟦<Parts as Validate>⟧.places };

    fn tls_validate_prefix(whole: &[u8]) -> Result<&[u8], Rejected<'_>> {
        <Parts>::tls_validate_prefix(whole)
    }

    fn tls_width() -> Option<usize> {
        <Parts>::tls_width()
    }
}

impl Parted for ServerName {
    type Parts = Parts;

    ghost as_parts = { λ bytes is. is };
}

/// The encoding of a [`ServerName`], split into its fields.
#[derive(Drop)]
pub struct ServerNameView<'a> {
    /// `NameType name_type;`
    pub name_type: Encoded<'a, NameTypeHostName>,
    /// `HostName;`
    pub name: Encoded<'a, HostName>,
}

impl<'a> From<Encoded<'a, ServerName>> for ServerNameView<'a> {
    ghost from_gives = { λ whole view. whole ≡ (view.name_type ++ view.name) };

    fn from(whole: Encoded<'a, ServerName>) -> ServerNameView<'a> {
        let (name_type, name) = whole.parts().split();
        ServerNameView { name_type, name }
    }
}

/// Two values are equal if and only if all their fields are equal.
pub fn is_compared_by_its_fields()
    ensures { (x y : ServerName) →
        ⟦<ServerName as PartialEq>⟧.eq x y
        ≡ (⟦<NameTypeHostName as PartialEq>⟧.eq x.name_type y.name_type
        && ⟦<HostName as PartialEq>⟧.eq x.name y.name) }
{}
