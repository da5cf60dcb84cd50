//! Each type of `tls13` has the bytes that its text means.
//! Each value's bytes are those of its parts, by their names.
ghost use Rattle.tls_codec_grammar.specs.Tree.{Tree};
ghost use Rattle.tls_presentation.specs.Meaning.{SameBytes, means, part_means};
ghost use Rattle.tls_presentation.specs.Says.{SpelledAs};
ghost use Rattle.tls13_laws.specs.Definitions.{tls13};
ghost use Rattle.tls13_laws.specs.Says.{AlertSays, AlertDescriptionSays, AlertLevelSays, CertificateSays, CertificateAuthoritiesExtensionSays, CertificateEntrySays, CertificateRequestSays, CertificateTypeSays, CertificateVerifySays, ClientHelloSays, ContentTypeSays, ContentTypeApplicationDataSays, CookieSays, EarlyDataIndicationSays, EmptyTypeSays, EncryptedExtensionsSays, EndOfEarlyDataSays, ExtensionSays, ExtensionTypeSays, HandshakeSays, HandshakeTypeSays, KeyShareClientHelloSays, KeyShareEntrySays, KeyShareHelloRetryRequestSays, KeyShareServerHelloSays, KeyUpdateSays, KeyUpdateRequestSays};
ghost use Rattle.tls13.specs.declared.alert.Alert.{Alert};
ghost use Rattle.tls13.specs.declared.alert_description.AlertDescription.{AlertDescription};
ghost use Rattle.tls13.specs.declared.alert_level.AlertLevel.{AlertLevel};
ghost use Rattle.tls13.specs.declared.certificate.Certificate.{Certificate};
ghost use Rattle.tls13.specs.declared.certificate_authorities_extension.CertificateAuthoritiesExtension.{CertificateAuthoritiesExtension};
ghost use Rattle.tls13.specs.declared.certificate_entry.CertificateEntry.{CertificateEntry};
ghost use Rattle.tls13.specs.declared.certificate_request.CertificateRequest.{CertificateRequest};
ghost use Rattle.tls13.specs.declared.certificate_type.CertificateType.{CertificateType};
ghost use Rattle.tls13.specs.declared.certificate_verify.CertificateVerify.{CertificateVerify};
ghost use Rattle.tls13.specs.declared.client_hello.ClientHello.{ClientHello};
ghost use Rattle.tls13.specs.declared.content_type.ContentType.{ContentType};
ghost use Rattle.tls13.specs.declared.content_type_application_data.ContentTypeApplicationData.{ContentTypeApplicationData};
ghost use Rattle.tls13.specs.declared.cookie.Cookie.{Cookie};
ghost use Rattle.tls13.specs.declared.early_data_indication.EarlyDataIndication.{EarlyDataIndication};
ghost use Rattle.tls13.specs.declared.empty_type.EmptyType.{EmptyType};
ghost use Rattle.tls13.specs.declared.encrypted_extensions.EncryptedExtensions.{EncryptedExtensions};
ghost use Rattle.tls13.specs.declared.end_of_early_data.EndOfEarlyData.{EndOfEarlyData};
ghost use Rattle.tls13.specs.declared.extension.Extension.{Extension};
ghost use Rattle.tls13.specs.declared.extension_type.ExtensionType.{ExtensionType};
ghost use Rattle.tls13.specs.declared.handshake.Handshake.{Handshake};
ghost use Rattle.tls13.specs.declared.handshake_type.HandshakeType.{HandshakeType};
ghost use Rattle.tls13.specs.declared.key_share_client_hello.KeyShareClientHello.{KeyShareClientHello};
ghost use Rattle.tls13.specs.declared.key_share_entry.KeyShareEntry.{KeyShareEntry};
ghost use Rattle.tls13.specs.declared.key_share_hello_retry_request.KeyShareHelloRetryRequest.{KeyShareHelloRetryRequest};
ghost use Rattle.tls13.specs.declared.key_share_server_hello.KeyShareServerHello.{KeyShareServerHello};
ghost use Rattle.tls13.specs.declared.key_update.KeyUpdate.{KeyUpdate};
ghost use Rattle.tls13.specs.declared.key_update_request.KeyUpdateRequest.{KeyUpdateRequest};
ghost use Rattle.tls13.specs.CertificateType.{certificate_type_code, certificate_type_name};
ghost use Rattle.tls13.specs.HandshakeType.{handshake_type_code, handshake_type_name};
ghost use Rattle.tls13.specs.KeyUpdateRequest.{key_update_request_code, key_update_request_name};
ghost use Rattle.tls13.specs.AlertDescription.{alert_description_names};
ghost use Rattle.tls13.specs.AlertLevel.{alert_level_names};
ghost use Rattle.tls13.specs.ContentType.{content_type_names};
ghost use Rattle.tls13.specs.ExtensionType.{extension_type_names};
ghost use Rattle.std.specs.Prelude.{◌≡◌};
ghost use Rattle.tls_presentation.specs.Says.{names_in, value_number};

use tls_codec::{Size, SizeFor};
use tls13::{
    Alert, AlertDescription, AlertLevel, Certificate, CertificateAuthoritiesExtension,
    CertificateEntry, CertificateRequest, CertificateType, CertificateVerify, ClientHello,
    ContentType, ContentTypeApplicationData, Cookie, EarlyDataIndication, EmptyType,
    EncryptedExtensions, EndOfEarlyData, Extension, ExtensionType, Handshake, HandshakeType,
    KeyShareClientHello, KeyShareEntry, KeyShareHelloRetryRequest, KeyShareServerHello, KeyUpdate,
    KeyUpdateRequest,
};

/// `Alert`.
pub fn alert_is_as_printed()
    ensures bytes { (c : Tree) → SameBytes (means tls13 "Alert" c) ⟦<Alert as Size>⟧.format }
    ensures values { (v : Alert) → SpelledAs ⟦<Alert as Size>⟧.format (⟦<Alert as Size>⟧.plain v)
        (AlertSays v) }
{}

/// `AlertDescription`.
pub fn alert_description_is_as_printed()
    ensures bytes { (c : Tree) → SameBytes (means tls13 "AlertDescription" c)
        ⟦<AlertDescription as Size>⟧.format }
    ensures values { (v : AlertDescription) → SpelledAs ⟦<AlertDescription as Size>⟧.format
        (⟦<AlertDescription as Size>⟧.plain v) (AlertDescriptionSays v) }
    ensures names { alert_description_names ≡ names_in tls13 "AlertDescription" }
{}

/// `AlertLevel`.
pub fn alert_level_is_as_printed()
    ensures bytes { (c : Tree) → SameBytes (means tls13 "AlertLevel" c)
        ⟦<AlertLevel as Size>⟧.format }
    ensures values { (v : AlertLevel) → SpelledAs ⟦<AlertLevel as Size>⟧.format
        (⟦<AlertLevel as Size>⟧.plain v) (AlertLevelSays v) }
    ensures names { alert_level_names ≡ names_in tls13 "AlertLevel" }
{}

/// `Certificate`.
pub fn certificate_is_as_printed()
    ensures bytes { (c : Tree) → SameBytes (means tls13 "Certificate" c)
        ⟦<Certificate as Size>⟧.format }
    ensures values { (v : Certificate) → SpelledAs ⟦<Certificate as Size>⟧.format
        (⟦<Certificate as Size>⟧.plain v) (CertificateSays v) }
{}

/// `CertificateAuthoritiesExtension`.
pub fn certificate_authorities_extension_is_as_printed()
    ensures bytes { (c : Tree) → SameBytes (means tls13 "CertificateAuthoritiesExtension" c)
        ⟦<CertificateAuthoritiesExtension as Size>⟧.format }
    ensures values { (v : CertificateAuthoritiesExtension) →
        SpelledAs ⟦<CertificateAuthoritiesExtension as Size>⟧.format
        (⟦<CertificateAuthoritiesExtension as Size>⟧.plain v)
        (CertificateAuthoritiesExtensionSays v) }
{}

/// `CertificateEntry`.
pub fn certificate_entry_is_as_printed()
    ensures bytes { (c : Tree) → SameBytes (means tls13 "CertificateEntry" c)
        ⟦<CertificateEntry as Size>⟧.format }
    ensures values { (v : CertificateEntry) → SpelledAs ⟦<CertificateEntry as Size>⟧.format
        (⟦<CertificateEntry as Size>⟧.plain v) (CertificateEntrySays v) }
{}

/// `CertificateRequest`.
pub fn certificate_request_is_as_printed()
    ensures bytes { (c : Tree) → SameBytes (means tls13 "CertificateRequest" c)
        ⟦<CertificateRequest as Size>⟧.format }
    ensures values { (v : CertificateRequest) → SpelledAs ⟦<CertificateRequest as Size>⟧.format
        (⟦<CertificateRequest as Size>⟧.plain v) (CertificateRequestSays v) }
{}

/// `CertificateType`.
pub fn certificate_type_is_as_printed()
    ensures bytes { (c : Tree) → SameBytes (means tls13 "CertificateType" c)
        ⟦<CertificateType as Size>⟧.format }
    ensures values { (v : CertificateType) → SpelledAs ⟦<CertificateType as Size>⟧.format
        (⟦<CertificateType as Size>⟧.plain v) (CertificateTypeSays v) }
    ensures names { (v : CertificateType) → value_number tls13 "CertificateType"
        (certificate_type_name v) ≡ certificate_type_code v }
{}

/// `CertificateVerify`.
pub fn certificate_verify_is_as_printed()
    ensures bytes { (c : Tree) → SameBytes (means tls13 "CertificateVerify" c)
        ⟦<CertificateVerify as Size>⟧.format }
    ensures values { (v : CertificateVerify) → SpelledAs ⟦<CertificateVerify as Size>⟧.format
        (⟦<CertificateVerify as Size>⟧.plain v) (CertificateVerifySays v) }
{}

/// `ClientHello`.
pub fn client_hello_is_as_printed()
    ensures bytes { (c : Tree) → SameBytes (means tls13 "ClientHello" c)
        ⟦<ClientHello as Size>⟧.format }
    ensures values { (v : ClientHello) → SpelledAs ⟦<ClientHello as Size>⟧.format
        (⟦<ClientHello as Size>⟧.plain v) (ClientHelloSays v) }
{}

/// `ContentType`.
pub fn content_type_is_as_printed()
    ensures bytes { (c : Tree) → SameBytes (means tls13 "ContentType" c)
        ⟦<ContentType as Size>⟧.format }
    ensures values { (v : ContentType) → SpelledAs ⟦<ContentType as Size>⟧.format
        (⟦<ContentType as Size>⟧.plain v) (ContentTypeSays v) }
    ensures names { content_type_names ≡ names_in tls13 "ContentType" }
{}

/// `ContentTypeApplicationData`.
pub fn content_type_application_data_is_as_printed()
    ensures bytes { (c : Tree) → SameBytes (part_means tls13 "TLSCiphertext" "opaque_type" c)
        ⟦<ContentTypeApplicationData as Size>⟧.format }
    ensures values { (v : ContentTypeApplicationData) →
        SpelledAs ⟦<ContentTypeApplicationData as Size>⟧.format
        (⟦<ContentTypeApplicationData as Size>⟧.plain v) (ContentTypeApplicationDataSays v) }
{}

/// `Cookie`.
pub fn cookie_is_as_printed()
    ensures bytes { (c : Tree) → SameBytes (means tls13 "Cookie" c) ⟦<Cookie as Size>⟧.format }
    ensures values { (v : Cookie) → SpelledAs ⟦<Cookie as Size>⟧.format (⟦<Cookie as Size>⟧.plain v)
        (CookieSays v) }
{}

/// `EarlyDataIndication`.
pub fn early_data_indication_is_as_printed()
    ensures bytes { (c : Tree) → SameBytes (means tls13 "EarlyDataIndication" c)
        (⟦<EarlyDataIndication as SizeFor<HandshakeType>>⟧.format_for c) }
    ensures values { (c : Tree) (v : EarlyDataIndication) →
        SpelledAs (⟦<EarlyDataIndication as SizeFor<HandshakeType>>⟧.format_for c)
        (⟦<EarlyDataIndication as SizeFor<HandshakeType>>⟧.plain v) (EarlyDataIndicationSays c v) }
{}

/// `EmptyType`.
pub fn empty_type_is_as_printed()
    ensures bytes { (c : Tree) → SameBytes (means tls13 "Empty" c) ⟦<EmptyType as Size>⟧.format }
    ensures values { (v : EmptyType) → SpelledAs ⟦<EmptyType as Size>⟧.format
        (⟦<EmptyType as Size>⟧.plain v) (EmptyTypeSays v) }
{}

/// `EncryptedExtensions`.
pub fn encrypted_extensions_is_as_printed()
    ensures bytes { (c : Tree) → SameBytes (means tls13 "EncryptedExtensions" c)
        ⟦<EncryptedExtensions as Size>⟧.format }
    ensures values { (v : EncryptedExtensions) → SpelledAs ⟦<EncryptedExtensions as Size>⟧.format
        (⟦<EncryptedExtensions as Size>⟧.plain v) (EncryptedExtensionsSays v) }
{}

/// `EndOfEarlyData`.
pub fn end_of_early_data_is_as_printed()
    ensures bytes { (c : Tree) → SameBytes (means tls13 "EndOfEarlyData" c)
        ⟦<EndOfEarlyData as Size>⟧.format }
    ensures values { (v : EndOfEarlyData) → SpelledAs ⟦<EndOfEarlyData as Size>⟧.format
        (⟦<EndOfEarlyData as Size>⟧.plain v) (EndOfEarlyDataSays v) }
{}

/// `Extension`.
pub fn extension_is_as_printed()
    ensures bytes { (c : Tree) → SameBytes (means tls13 "Extension" c)
        ⟦<Extension as Size>⟧.format }
    ensures values { (v : Extension) → SpelledAs ⟦<Extension as Size>⟧.format
        (⟦<Extension as Size>⟧.plain v) (ExtensionSays v) }
{}

/// `ExtensionType`.
pub fn extension_type_is_as_printed()
    ensures bytes { (c : Tree) → SameBytes (means tls13 "ExtensionType" c)
        ⟦<ExtensionType as Size>⟧.format }
    ensures values { (v : ExtensionType) → SpelledAs ⟦<ExtensionType as Size>⟧.format
        (⟦<ExtensionType as Size>⟧.plain v) (ExtensionTypeSays v) }
    ensures names { extension_type_names ≡ names_in tls13 "ExtensionType" }
{}

/// `Handshake`.
pub fn handshake_is_as_printed()
    ensures bytes { (c : Tree) → SameBytes (means tls13 "Handshake" c)
        ⟦<Handshake as Size>⟧.format }
    ensures values { (v : Handshake) → SpelledAs ⟦<Handshake as Size>⟧.format
        (⟦<Handshake as Size>⟧.plain v) (HandshakeSays v) }
{}

/// `HandshakeType`.
pub fn handshake_type_is_as_printed()
    ensures bytes { (c : Tree) → SameBytes (means tls13 "HandshakeType" c)
        ⟦<HandshakeType as Size>⟧.format }
    ensures values { (v : HandshakeType) → SpelledAs ⟦<HandshakeType as Size>⟧.format
        (⟦<HandshakeType as Size>⟧.plain v) (HandshakeTypeSays v) }
    ensures names { (v : HandshakeType) → value_number tls13 "HandshakeType" (handshake_type_name v)
        ≡ handshake_type_code v }
{}

/// `KeyShareClientHello`.
pub fn key_share_client_hello_is_as_printed()
    ensures bytes { (c : Tree) → SameBytes (means tls13 "KeyShareClientHello" c)
        ⟦<KeyShareClientHello as Size>⟧.format }
    ensures values { (v : KeyShareClientHello) → SpelledAs ⟦<KeyShareClientHello as Size>⟧.format
        (⟦<KeyShareClientHello as Size>⟧.plain v) (KeyShareClientHelloSays v) }
{}

/// `KeyShareEntry`.
pub fn key_share_entry_is_as_printed()
    ensures bytes { (c : Tree) → SameBytes (means tls13 "KeyShareEntry" c)
        ⟦<KeyShareEntry as Size>⟧.format }
    ensures values { (v : KeyShareEntry) → SpelledAs ⟦<KeyShareEntry as Size>⟧.format
        (⟦<KeyShareEntry as Size>⟧.plain v) (KeyShareEntrySays v) }
{}

/// `KeyShareHelloRetryRequest`.
pub fn key_share_hello_retry_request_is_as_printed()
    ensures bytes { (c : Tree) → SameBytes (means tls13 "KeyShareHelloRetryRequest" c)
        ⟦<KeyShareHelloRetryRequest as Size>⟧.format }
    ensures values { (v : KeyShareHelloRetryRequest) →
        SpelledAs ⟦<KeyShareHelloRetryRequest as Size>⟧.format
        (⟦<KeyShareHelloRetryRequest as Size>⟧.plain v) (KeyShareHelloRetryRequestSays v) }
{}

/// `KeyShareServerHello`.
pub fn key_share_server_hello_is_as_printed()
    ensures bytes { (c : Tree) → SameBytes (means tls13 "KeyShareServerHello" c)
        ⟦<KeyShareServerHello as Size>⟧.format }
    ensures values { (v : KeyShareServerHello) → SpelledAs ⟦<KeyShareServerHello as Size>⟧.format
        (⟦<KeyShareServerHello as Size>⟧.plain v) (KeyShareServerHelloSays v) }
{}

/// `KeyUpdate`.
pub fn key_update_is_as_printed()
    ensures bytes { (c : Tree) → SameBytes (means tls13 "KeyUpdate" c)
        ⟦<KeyUpdate as Size>⟧.format }
    ensures values { (v : KeyUpdate) → SpelledAs ⟦<KeyUpdate as Size>⟧.format
        (⟦<KeyUpdate as Size>⟧.plain v) (KeyUpdateSays v) }
{}

/// `KeyUpdateRequest`.
pub fn key_update_request_is_as_printed()
    ensures bytes { (c : Tree) → SameBytes (means tls13 "KeyUpdateRequest" c)
        ⟦<KeyUpdateRequest as Size>⟧.format }
    ensures values { (v : KeyUpdateRequest) → SpelledAs ⟦<KeyUpdateRequest as Size>⟧.format
        (⟦<KeyUpdateRequest as Size>⟧.plain v) (KeyUpdateRequestSays v) }
    ensures names { (v : KeyUpdateRequest) → value_number tls13 "KeyUpdateRequest"
        (key_update_request_name v) ≡ key_update_request_code v }
{}
