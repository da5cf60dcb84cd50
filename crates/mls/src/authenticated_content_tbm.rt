//! [`AuthenticatedContentTBM`].
ghost use Rattle.std.specs.Prelude.{◌≡◌, ◌&&◌};
ghost use Rattle.mls.specs.AuthenticatedContentTBM.{authenticated_content_tbm_format, authenticated_content_tbm_meets, authenticated_content_tbm_plain};
ghost use Rattle.mls.specs.declared.authenticated_content_tbm.AuthenticatedContentTBM.{AuthenticatedContentTBM};

use crate::{ContentType, FramedContentAuthData, FramedContentTBS};
use std::marker::PhantomData;
use tls_codec::{ByRefIn, ByRefThen, Error, Serialize, Sink, Size};
use tls_codec_cases::{By, append_as, write_as};

/// `AuthenticatedContentTBM` (RFC 9420, section 6.2).
///
/// It has references to its fields. It can only be encoded.
#[derive(PartialEq, Eq, Debug, Clone, Copy)]
pub struct AuthenticatedContentTBM<'a> {
    /// `FramedContentTBS content_tbs;`
    pub content_tbs: FramedContentTBS<'a>,
    /// `FramedContentAuthData auth;`
    pub auth: &'a FramedContentAuthData,
}

type ByRefParts<'a> = ByRefThen<
    'a,
    FramedContentTBS<'a>,
    By<ContentType, ByRefIn<'a, FramedContentAuthData>>,
>;

impl AuthenticatedContentTBM<'_> {
    fn parts(&self) -> ByRefParts<'_>
        ensures { ⟦<ByRefParts<'static> as Size>⟧.plain result
            ≡ authenticated_content_tbm_plain self.now }
    {
        let first = &self.content_tbs;
        let rest = By(ByRefIn(self.auth), PhantomData);
        ByRefThen { first, rest }
    }
}

impl Size for AuthenticatedContentTBM<'_> {
    ghost plain = { authenticated_content_tbm_plain };

    ghost format = { authenticated_content_tbm_format };

    fn tls_serialized_len(&self) -> usize {
        self.parts().tls_serialized_len()
    }

    ghost lawful = { authenticated_content_tbm_meets };
}

/// `EncodingError("value does not fit its context")`: a field's case is for another tag.
impl Serialize for AuthenticatedContentTBM<'_> {
    fn tls_serialize<W: Sink>(&self, writer: &mut W) -> Result<usize, Error> {
        write_as(self, &self.parts(), writer)
    }

    fn tls_serialize_into(&self, out: &mut Vec<u8>) -> Result<usize, Error> {
        append_as(self, &self.parts(), out)
    }
}

/// Two values are equal if and only if all their fields are equal.
pub fn is_compared_by_its_fields()
    ensures { (x y : AuthenticatedContentTBM) →
        ⟦<AuthenticatedContentTBM<'static> as PartialEq>⟧.eq x y
        ≡ (⟦<FramedContentTBS<'static> as PartialEq>⟧.eq x.content_tbs y.content_tbs
        && ⟦<FramedContentAuthData as PartialEq>⟧.eq x.auth.now y.auth.now) }
{}
