//! [`Alert`].
ghost use Rattle.std.specs.Prelude.{◌≡◌, ◌&&◌, ◌++◌};
ghost use Rattle.tls13.specs.Alert.{alert_format, alert_meets, alert_plain};
ghost use Rattle.tls13.specs.declared.alert.Alert.{Alert};

use crate::{AlertDescription, AlertLevel};
use std::alloc::Global;
use tls_codec::{ByRef, Deserialize, DeserializeBytes, Error, Serialize, Sink, Size, Source};
use tls_codec_cases::append_as;
use tls_codec_validate::{Rejected, Validate};
use tls_codec_views::{Encoded, Parted};

/// `Alert` (RFC 8446, appendix B.2).
#[derive(PartialEq, Eq, Debug, Clone, Drop)]
pub struct Alert {
    /// `AlertLevel level;`
    pub level: AlertLevel,
    /// `AlertDescription description;`
    pub description: AlertDescription,
}

type Parts = (AlertLevel, AlertDescription);

impl Size for Alert {
    ghost plain = { alert_plain };

    ghost format = { alert_format };

    fn tls_serialized_len(&self) -> usize {
        (ByRef(&self.level), ByRef(&self.description)).tls_serialized_len()
    }

    ghost lawful = { alert_meets };
}

impl Serialize for Alert {
    fn tls_serialize<W: Sink>(&self, writer: &mut W) -> Result<usize, Error> {
        (ByRef(&self.level), ByRef(&self.description)).tls_serialize(writer)
    }

    fn tls_serialize_into(&self, out: &mut Vec<u8>) -> Result<usize, Error> {
        append_as(self, &(ByRef(&self.level), ByRef(&self.description)), out)
    }
}

impl Deserialize for Alert {
    ghost names = { ⟦<Parts as Deserialize>⟧.names };

    fn tls_deserialize<R: Source>(alloc: Global, src: &mut R) -> Result<Alert, Error> {
        let (level, description) = <Parts>::tls_deserialize(alloc, src)?;
        Ok(Alert { level, description })
    }
}

impl DeserializeBytes for Alert {
    ghost names = { ⟦<Parts as DeserializeBytes>⟧.names };

    fn tls_deserialize_bytes(alloc: Global, whole: &[u8]) -> Result<(Alert, &[u8]), Error> {
        let ((level, description), rest) = <Parts>::tls_deserialize_bytes(alloc, whole)?;
        Ok((Alert { level, description }, rest))
    }
}

impl Validate for Alert {
    ghost places = { ⟦<Parts as Validate>⟧.places };

    fn tls_validate_prefix(whole: &[u8]) -> Result<&[u8], Rejected<'_>> {
        <Parts>::tls_validate_prefix(whole)
    }

    fn tls_width() -> Option<usize> {
        <Parts>::tls_width()
    }
}

impl Parted for Alert {
    type Parts = Parts;

    ghost as_parts = { λ bytes is. is };
}

/// The encoding of a [`Alert`], split into its fields.
#[derive(Drop)]
pub struct AlertView<'a> {
    /// `AlertLevel level;`
    pub level: Encoded<'a, AlertLevel>,
    /// `AlertDescription description;`
    pub description: Encoded<'a, AlertDescription>,
}

impl<'a> From<Encoded<'a, Alert>> for AlertView<'a> {
    ghost from_gives = { λ whole view. whole ≡ (view.level ++ view.description) };

    fn from(whole: Encoded<'a, Alert>) -> AlertView<'a> {
        let (level, description) = whole.parts().split();
        AlertView { level, description }
    }
}

/// Two values are equal if and only if all their fields are equal.
pub fn is_compared_by_its_fields()
    ensures { (x y : Alert) →
        ⟦<Alert as PartialEq>⟧.eq x y
        ≡ (⟦<AlertLevel as PartialEq>⟧.eq x.level y.level
        && ⟦<AlertDescription as PartialEq>⟧.eq x.description y.description) }
{}
