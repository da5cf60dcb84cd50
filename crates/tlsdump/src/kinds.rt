//! The types of messages, by their names.

ghost use Rattle.std.specs.Prelude.{◌≡◌, None};
ghost use Rattle.tlsdump.specs.Kinds.{Checks, FirstNamed};
ghost use Rattle.tlsdump.specs.Protocols.{kinds_of};

pub mod of_ct;
pub mod of_mls;
pub mod of_tls13;

use tls_codec_validate::{Rejected, Validate};

/// The bytes after a message, or why the bytes begin with no message.
pub type Checked<'a> = Result<&'a [u8], Rejected<'a>>;

/// What the validator of a type says of bytes.
pub(crate) fn validated<T: Validate>(bytes: &[u8]) -> Option<Checked<'_>>
    ensures { Checks T.format bytes.now result }
{
    Some(T::tls_validate_prefix(bytes))
}

/// A protocol, whose types have names of their own.
#[derive(Clone, Copy, PartialEq, Eq, Debug)]
pub enum Protocol {
    Mls,
    Tls13,
    Ct,
}

/// Each of them.
pub static PROTOCOLS: [Protocol; 3] = [Protocol::Mls, Protocol::Tls13, Protocol::Ct];

impl Protocol {
    /// The word in front of a type's name.
    pub fn word(self) -> &'static str {
        match self {
            Protocol::Mls => "mls",
            Protocol::Tls13 => "tls",
            Protocol::Ct => "ct",
        }
    }

    /// The bytes after the message of this type that `bytes` begins with, or why there is none.
    /// `None`: no type has the name.
    pub fn check<'a>(self, name: &str, bytes: &'a [u8]) -> Option<Checked<'a>>
        ensures { FirstNamed (kinds_of self) name.now (λ k. Checks k.format bytes.now result)
            (result ≡ None) }
    {
        match self {
            Protocol::Mls => of_mls::check(name, bytes),
            Protocol::Tls13 => of_tls13::check(name, bytes),
            Protocol::Ct => of_ct::check(name, bytes),
        }
    }

    /// Whether a type has this name.
    pub fn has(self, name: &str) -> bool {
        self.check(name, &[]).is_some()
    }
}

/// A type, as a word names it.
#[derive(Clone, Copy)]
pub struct Kind<'a> {
    pub protocol: Protocol,
    pub name: &'a str,
}

/// What a word names.
#[derive(Clone, Copy)]
pub enum Named<'a> {
    One(Kind<'a>),
    /// Types of at least two protocols.
    Several,
    Nothing,
}

/// The type that a word names, as `KeyPackage` or `tls.Certificate`.
pub fn kind_of(word: &str) -> Named<'_> {
    let (wanted, name) = match word.split_once('.') {
        Some((protocol, name)) => (Some(protocol), name),
        None => (None, word),
    };
    let mut found = Named::Nothing;
    for protocol in PROTOCOLS {
        if wanted.is_none_or(|wanted| wanted == protocol.word()) && protocol.has(name) {
            found = match found {
                Named::Nothing => Named::One(Kind { protocol, name }),
                _ => Named::Several,
            };
        }
    }
    found
}

/// The type of bytes, if no word names it. Their first bytes show whether they are taken for an
/// `MLSMessage` or for a TLS record.
pub fn recognised(bytes: &[u8]) -> Option<Kind<'static>> {
    let (protocol, name) = match bytes {
        [0, 1, 0, 1..=5, ..] => (Protocol::Mls, "MLSMessage"),
        [20..=24, 3, 0..=4, ..] => (Protocol::Tls13, "TLSPlaintext"),
        _ => return None,
    };
    Some(Kind { protocol, name })
}
