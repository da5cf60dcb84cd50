//! [`ClientOrServerExtension`].
ghost use Rattle.std.specs.Prelude.{◌≡◌, MatchOption, MatchResult, Some, false, nat_eq};
ghost use Rattle.std.specs.Fmt.{padded};
ghost use Rattle.std.specs.Ordering.{nat_cmp};
ghost use Rattle.tls_codec.specs.Errors.{UnknownValue};
ghost use Rattle.std.proofs.Common.{refl};
ghost use Rattle.tls_codec.specs.OwnMessages.{values, values_names, values_source_names};
ghost use Rattle.tls_codec_validate.specs.TaggedPlaces.{values_places};
ghost use Rattle.messages_of_each_shape.specs.ClientOrServerExtension.{client_or_server_extension_code, client_or_server_extension_format, client_or_server_extension_has, client_or_server_extension_meets, client_or_server_extension_name, client_or_server_extension_plain, client_or_server_extension_selected};
ghost use Rattle.messages_of_each_shape.specs.declared.client_or_server_extension.ClientOrServerExtension.{ClientOrServerExtension};

use std::alloc::Global;
use std::fmt;
use tls_codec::{
    Deserialize, DeserializeBytes, Error, Serialize, Sink, Size, Source, unknown_value,
};
use tls_codec_cases::Selector;
use tls_codec_validate::{
    Keyed, Rejected, TagFirst, TagKeyed, Validate, ValidateKeyed, split_u8, validate_tag_first,
};
use tls_codec_views::{Encoded, Numbered, ReadInPlace};

/// `ClientOrServerExtension`.
#[derive(PartialEq, Eq, PartialOrd, Ord, Hash, Debug, Clone, Copy)]
pub enum ClientOrServerExtension {
    /// `client(0)`
    /// What would be prose: a message is a client's or a server's.
    Client,
    /// `server(1)`
    Server,
}

impl ClientOrServerExtension {
    /// Its number.
    pub fn code(&self) -> u8
        ensures { result ≡ client_or_server_extension_code self.now }
    {
        match self {
            ClientOrServerExtension::Client => 0,
            ClientOrServerExtension::Server => 1,
        }
    }

    /// Its name in the presentation language.
    pub fn name(&self) -> &'static str
        ensures { result.now ≡ client_or_server_extension_name self.now }
    {
        match self {
            ClientOrServerExtension::Client => "client",
            ClientOrServerExtension::Server => "server",
        }
    }

    /// The value with this number, if there is one.
    pub fn of_code(code: u8) -> Option<ClientOrServerExtension>
        ensures { MatchOption result (client_or_server_extension_has code ≡ false)
            (λ v. client_or_server_extension_code v ≡ code) }
    {
        match code {
            0 => Some(ClientOrServerExtension::Client),
            1 => Some(ClientOrServerExtension::Server),
            _ => None,
        }
    }
}

/// Its name.
impl fmt::Display for ClientOrServerExtension {
    ghost output = { λ v. Some (client_or_server_extension_name v) };

    ghost styled_output = { λ v spec. Some (padded spec (client_or_server_extension_name v)) };

    fn fmt<W: fmt::Write>(&self, f: &mut fmt::Formatter<W>) -> fmt::Result {
        f.pad(self.name())
    }
}

/// Its number.
impl From<ClientOrServerExtension> for u8 {
    ghost from_gives = { λ v number. number ≡ client_or_server_extension_code v };

    fn from(value: ClientOrServerExtension) -> u8 {
        value.code()
    }
}

/// The value with this number.
impl TryFrom<u8> for ClientOrServerExtension {
    type Error = Error;

    ghost try_from_gives = { λ tag r. MatchResult r
        (λ v. client_or_server_extension_code v ≡ tag)
        (λ e. (client_or_server_extension_has tag ≡ false) × (e ≡ UnknownValue tag)) };

    fn try_from(tag: u8) -> Result<ClientOrServerExtension, Error> {
        match ClientOrServerExtension::of_code(tag) {
            Some(value) => Ok(value),
            None => Err(unknown_value(u64::from(tag))),
        }
    }
}

impl Size for ClientOrServerExtension {
    ghost plain = { client_or_server_extension_plain };

    ghost format = { client_or_server_extension_format };

    fn tls_serialized_len(&self) -> usize {
        1
    }

    ghost lawful = { client_or_server_extension_meets };
}

impl Serialize for ClientOrServerExtension {
    fn tls_serialize<W: Sink>(&self, writer: &mut W) -> Result<usize, Error> {
        self.code().tls_serialize(writer)
    }

    fn tls_serialize_into(&self, out: &mut Vec<u8>) -> Result<usize, Error> {
        self.code().tls_serialize_into(out)
    }
}

impl Deserialize for ClientOrServerExtension {
    ghost names = { values_source_names 1 client_or_server_extension_has };

    fn tls_deserialize<R: Source>(
        alloc: Global,
        src: &mut R,
    ) -> Result<ClientOrServerExtension, Error> {
        let tag = u8::tls_deserialize(alloc, src)?;
        match ClientOrServerExtension::of_code(tag) {
            Some(value) => Ok(value),
            None => Err(unknown_value(u64::from(tag))),
        }
    }
}

impl DeserializeBytes for ClientOrServerExtension {
    ghost names = { values_names 1 client_or_server_extension_has };

    fn tls_deserialize_bytes(
        alloc: Global,
        whole: &[u8],
    ) -> Result<(ClientOrServerExtension, &[u8]), Error> {
        let (tag, rest) = u8::tls_deserialize_bytes(alloc, whole)?;
        match ClientOrServerExtension::of_code(tag) {
            Some(value) => Ok((value, rest)),
            None => Err(unknown_value(u64::from(tag))),
        }
    }
}

impl Selector for ClientOrServerExtension {
    ghost selected = { client_or_server_extension_selected };

    fn selects(&self) -> u64 {
        let tag = self.code();
        u64::from(tag)
    }
}

impl Validate for ClientOrServerExtension {
    ghost places = { values_places 1 client_or_server_extension_has };

    fn tls_validate_prefix(whole: &[u8]) -> Result<&[u8], Rejected<'_>> {
        let (tag, rest) = split_u8(whole)?;
        match ClientOrServerExtension::of_code(tag) {
            Some(_value) => Ok(rest),
            None => Err(Rejected {
                error: unknown_value(u64::from(tag)),
                rest: whole,
            }),
        }
    }
}

impl Numbered for ClientOrServerExtension {
    type Tag = u8;

    ghost has = { client_or_server_extension_has };

    ghost as_values = { λ bytes is. is };
}

impl ReadInPlace for ClientOrServerExtension {
    fn read(encoded: &Encoded<'_, ClientOrServerExtension>) -> ClientOrServerExtension {
        match encoded.number() {
            0 => ClientOrServerExtension::Client,
            1 => ClientOrServerExtension::Server,
            _ => unreachable!(),
        }
    }
}

impl Keyed for ClientOrServerExtension {
    type Key = u64;

    ghost is_key = { λ n c. n ≡ client_or_server_extension_selected c };

    fn key(&self) -> u64 {
        self.selects()
    }
}

impl TagKeyed for ClientOrServerExtension {
    fn tag_of_key(key: &u64) -> u64 {
        *key
    }
}

impl TagFirst for ClientOrServerExtension {
    type Tag = u8;

    ghost variants = { values client_or_server_extension_has };

    ghost first_tag = { client_or_server_extension_selected };

    ghost is_tagged = { λ d bytes v spelled. spelled };

    ghost is_first_tag = { λ d bytes tag parts spelled. refl };
}

impl ValidateKeyed for ClientOrServerExtension {
    fn tls_validate_keyed(whole: &[u8]) -> Result<(u64, &[u8]), Rejected<'_>> {
        validate_tag_first::<ClientOrServerExtension>(whole)
    }
}

/// Two values are equal if and only if their numbers are equal.
pub fn is_compared_by_its_number()
    ensures { (x y : ClientOrServerExtension) →
        ⟦<ClientOrServerExtension as PartialEq>⟧.eq x y
        ≡ nat_eq (client_or_server_extension_code x) (client_or_server_extension_code y) }
{}

/// Values are ordered by their numbers.
pub fn is_ordered_by_its_number()
    ensures { (x y : ClientOrServerExtension) →
        ⟦<ClientOrServerExtension as Ord>⟧.cmp x y
        ≡ nat_cmp (client_or_server_extension_code x) (client_or_server_extension_code y) }
{}
