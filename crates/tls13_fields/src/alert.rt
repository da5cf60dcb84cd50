//! The fields of `Alert`.
ghost use Rattle.tls13.specs.Alert.{alert_format};
ghost use Rattle.tls_codec_outcome.specs.Fields.{Located};
ghost use Rattle.tls13_fields.specs.AlertFields.{AreAlertFields};

use tls_codec_outcome::{Field, Locate, Span};
use tls13::{AlertDescription, AlertLevel};

/// Where the fields of an `Alert` are (RFC 8446, section 6).
#[repr(C)]
#[derive(Clone, Copy, PartialEq, Eq, Debug)]
pub struct AlertFields {
    /// `AlertLevel level;`
    pub level: Span,
    /// `AlertDescription description;`
    pub description: Span,
}

type Parts = (Field<AlertLevel>, Field<AlertDescription>);

impl AlertFields {
    /// The fields of the message that the bytes begin with. If they begin with none, the spans mean
    /// nothing.
    pub fn locate(bytes: &[u8]) -> AlertFields
        ensures { Located alert_format AreAlertFields bytes.now result }
    {
        let ((level, description), _) = <Parts>::locate(bytes, 0);
        AlertFields { level, description }
    }
}
