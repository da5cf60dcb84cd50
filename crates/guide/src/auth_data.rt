//! [`AuthData`], a message that needs a context.
ghost use Rattle.tls_codec.specs.OwnMessages.{is_number};
ghost use Rattle.guide.specs.Signed.{auth_data_format_for, auth_data_meets_for, auth_data_plain};

use std::alloc::Global;
use std::marker::PhantomData;
use tls_codec::{
    Always, ByRef, ByRefWhen, Condition, DeserializeFor, Error, SerializeFor, Sink, SizeFor,
    Source, VLBytes, When,
};

/// What `FramedContentAuthData` of MLS is (RFC 9420, section 6.1): only a commit has a confirmation tag.
#[derive(Drop)]
pub struct AuthData {
    pub signature: VLBytes,
    pub confirmation_tag: Option<VLBytes>,
}

/// The content type of a commit.
#[derive(Drop)]
pub struct OfCommit;

impl Condition<u8> for OfCommit {
    ghost holds = { is_number 3 };

    fn test(content_type: &u8) -> bool {
        *content_type == 3
    }
}

impl SizeFor<u8> for AuthData {
    ghost plain = { auth_data_plain };

    ghost format_for = { auth_data_format_for };

    fn tls_serialized_len_for(&self, content_type: &u8) -> usize {
        let tag: ByRefWhen<OfCommit, VLBytes> = ByRefWhen {
            value: &self.confirmation_tag,
            condition: PhantomData,
        };
        (ByRef(&self.signature), tag).tls_serialized_len_for(content_type)
    }

    ghost lawful = { auth_data_meets_for };
}

impl SerializeFor<u8> for AuthData {
    fn tls_serialize_for<W: Sink>(
        &self,
        content_type: &u8,
        writer: &mut W,
    ) -> Result<usize, Error> {
        let tag: ByRefWhen<OfCommit, VLBytes> = ByRefWhen {
            value: &self.confirmation_tag,
            condition: PhantomData,
        };
        (ByRef(&self.signature), tag).tls_serialize_for(content_type, writer)
    }
}

impl DeserializeFor<u8> for AuthData {
    ghost names = { ⟦<(Always<VLBytes>, When<OfCommit, VLBytes>) as DeserializeFor<u8>>⟧.names };

    /// Every error is that of a field.
    fn tls_deserialize_for<R: Source>(
        content_type: &u8,
        alloc: Global,
        src: &mut R,
    ) -> Result<AuthData, Error> {
        let (signature, tag) = <(Always<VLBytes>, When<OfCommit, VLBytes>)>::tls_deserialize_for(
            content_type,
            alloc,
            src,
        )?;
        Ok(AuthData {
            signature: signature.0,
            confirmation_tag: tag.value,
        })
    }
}
