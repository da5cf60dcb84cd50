//! Messages of TLS 1.3 (RFC 8446).
ghost use Rattle.std.specs.Prelude.{◌≡◌, None};
ghost use Rattle.tlsdump.specs.Kinds.{Checks, FirstNamed};
ghost use Rattle.tlsdump.specs.Tls13Kinds.{tls13_kinds};

use crate::kinds::{Checked, validated};
use tls13::{
    Alert, Certificate, CertificateAuthoritiesExtension, CertificateEntry, CertificateRequest,
    CertificateVerify, ClientHello, Cookie, EncryptedExtensions, Extension, Handshake,
    KeyShareClientHello, KeyShareEntry, KeyShareHelloRetryRequest, KeyShareServerHello, KeyUpdate,
    NamedGroupList, NewSessionTicket, OIDFilter, OIDFilterExtension, OfferedPsks, PskIdentity,
    PskKeyExchangeModes, ServerHello, SignatureSchemeList, TLSCiphertext, TLSPlaintext,
};

/// The bytes after the message of this type that `bytes` begins with, or why there is none. `None`:
/// no type has the name.
pub fn check<'a>(name: &str, bytes: &'a [u8]) -> Option<Checked<'a>>
    ensures { FirstNamed tls13_kinds name.now (λ k. Checks k.format bytes.now result)
        (result ≡ None) }
{
    match name {
        "Alert" => validated::<Alert>(bytes),
        "Certificate" => validated::<Certificate>(bytes),
        "CertificateAuthoritiesExtension" => validated::<CertificateAuthoritiesExtension>(bytes),
        "CertificateEntry" => validated::<CertificateEntry>(bytes),
        "CertificateRequest" => validated::<CertificateRequest>(bytes),
        "CertificateVerify" => validated::<CertificateVerify>(bytes),
        "ClientHello" => validated::<ClientHello>(bytes),
        "Cookie" => validated::<Cookie>(bytes),
        "EncryptedExtensions" => validated::<EncryptedExtensions>(bytes),
        "Extension" => validated::<Extension>(bytes),
        "Handshake" => validated::<Handshake>(bytes),
        "KeyShareClientHello" => validated::<KeyShareClientHello>(bytes),
        "KeyShareEntry" => validated::<KeyShareEntry>(bytes),
        "KeyShareHelloRetryRequest" => validated::<KeyShareHelloRetryRequest>(bytes),
        "KeyShareServerHello" => validated::<KeyShareServerHello>(bytes),
        "KeyUpdate" => validated::<KeyUpdate>(bytes),
        "NamedGroupList" => validated::<NamedGroupList>(bytes),
        "NewSessionTicket" => validated::<NewSessionTicket>(bytes),
        "OIDFilter" => validated::<OIDFilter>(bytes),
        "OIDFilterExtension" => validated::<OIDFilterExtension>(bytes),
        "OfferedPsks" => validated::<OfferedPsks>(bytes),
        "PskIdentity" => validated::<PskIdentity>(bytes),
        "PskKeyExchangeModes" => validated::<PskKeyExchangeModes>(bytes),
        "ServerHello" => validated::<ServerHello>(bytes),
        "SignatureSchemeList" => validated::<SignatureSchemeList>(bytes),
        "TLSCiphertext" => validated::<TLSCiphertext>(bytes),
        "TLSPlaintext" => validated::<TLSPlaintext>(bytes),
        _ => None,
    }
}
