//! Each type of `tls13` has the bytes that its text means.
//! Each value's bytes are those of its parts, by their names.
ghost use Rattle.tls_codec_grammar.specs.Tree.{Tree};
ghost use Rattle.tls_presentation.specs.Meaning.{SameBytes, means, part_means};
ghost use Rattle.tls_presentation.specs.Says.{SpelledAs};
ghost use Rattle.tls13_laws.specs.Definitions.{tls13};
ghost use Rattle.tls13_laws.specs.Says.{LegacyCompressionMethodX00Says, NamedGroupSays, NamedGroupListSays, NewSessionTicketSays, OIDFilterSays, OIDFilterExtensionSays, OfferedPsksSays, PostHandshakeAuthSays, PreSharedKeyExtensionSays, ProtocolVersionX0303Says, PskIdentitySays, PskKeyExchangeModeSays, PskKeyExchangeModesSays, ServerHelloSays, SignatureSchemeSays, SignatureSchemeListSays, SupportedVersionsSays, TLSCiphertextSays, TLSPlaintextSays};
ghost use Rattle.tls13.specs.declared.legacy_compression_method_x00.LegacyCompressionMethodX00.{LegacyCompressionMethodX00};
ghost use Rattle.tls13.specs.declared.named_group.NamedGroup.{NamedGroup};
ghost use Rattle.tls13.specs.declared.named_group_list.NamedGroupList.{NamedGroupList};
ghost use Rattle.tls13.specs.declared.new_session_ticket.NewSessionTicket.{NewSessionTicket};
ghost use Rattle.tls13.specs.declared.oid_filter.OIDFilter.{OIDFilter};
ghost use Rattle.tls13.specs.declared.oid_filter_extension.OIDFilterExtension.{OIDFilterExtension};
ghost use Rattle.tls13.specs.declared.offered_psks.OfferedPsks.{OfferedPsks};
ghost use Rattle.tls13.specs.declared.post_handshake_auth.PostHandshakeAuth.{PostHandshakeAuth};
ghost use Rattle.tls13.specs.declared.pre_shared_key_extension.PreSharedKeyExtension.{PreSharedKeyExtension};
ghost use Rattle.tls13.specs.declared.protocol_version_x0303.ProtocolVersionX0303.{ProtocolVersionX0303};
ghost use Rattle.tls13.specs.declared.psk_identity.PskIdentity.{PskIdentity};
ghost use Rattle.tls13.specs.declared.psk_key_exchange_mode.PskKeyExchangeMode.{PskKeyExchangeMode};
ghost use Rattle.tls13.specs.declared.psk_key_exchange_modes.PskKeyExchangeModes.{PskKeyExchangeModes};
ghost use Rattle.tls13.specs.declared.server_hello.ServerHello.{ServerHello};
ghost use Rattle.tls13.specs.declared.signature_scheme.SignatureScheme.{SignatureScheme};
ghost use Rattle.tls13.specs.declared.signature_scheme_list.SignatureSchemeList.{SignatureSchemeList};
ghost use Rattle.tls13.specs.declared.supported_versions.SupportedVersions.{SupportedVersions};
ghost use Rattle.tls13.specs.declared.tls_ciphertext.TLSCiphertext.{TLSCiphertext};
ghost use Rattle.tls13.specs.declared.tls_plaintext.TLSPlaintext.{TLSPlaintext};
ghost use Rattle.tls13.specs.NamedGroup.{named_group_names};
ghost use Rattle.tls13.specs.PskKeyExchangeMode.{psk_key_exchange_mode_names};
ghost use Rattle.tls13.specs.SignatureScheme.{signature_scheme_names};
ghost use Rattle.std.specs.Prelude.{◌≡◌};
ghost use Rattle.tls_presentation.specs.Says.{names_in};

use tls_codec::{Size, SizeFor};
use tls13::{
    HandshakeType, LegacyCompressionMethodX00, NamedGroup, NamedGroupList, NewSessionTicket,
    OIDFilter, OIDFilterExtension, OfferedPsks, PostHandshakeAuth, PreSharedKeyExtension,
    ProtocolVersionX0303, PskIdentity, PskKeyExchangeMode, PskKeyExchangeModes, ServerHello,
    SignatureScheme, SignatureSchemeList, SupportedVersions, TLSCiphertext, TLSPlaintext,
};

/// `LegacyCompressionMethodX00`.
pub fn legacy_compression_method_x00_is_as_printed()
    ensures bytes { (c : Tree) →
        SameBytes (part_means tls13 "ServerHello" "legacy_compression_method" c)
        ⟦<LegacyCompressionMethodX00 as Size>⟧.format }
    ensures values { (v : LegacyCompressionMethodX00) →
        SpelledAs ⟦<LegacyCompressionMethodX00 as Size>⟧.format
        (⟦<LegacyCompressionMethodX00 as Size>⟧.plain v) (LegacyCompressionMethodX00Says v) }
{}

/// `NamedGroup`.
pub fn named_group_is_as_printed()
    ensures bytes { (c : Tree) → SameBytes (means tls13 "NamedGroup" c)
        ⟦<NamedGroup as Size>⟧.format }
    ensures values { (v : NamedGroup) → SpelledAs ⟦<NamedGroup as Size>⟧.format
        (⟦<NamedGroup as Size>⟧.plain v) (NamedGroupSays v) }
    ensures names { named_group_names ≡ names_in tls13 "NamedGroup" }
{}

/// `NamedGroupList`.
pub fn named_group_list_is_as_printed()
    ensures bytes { (c : Tree) → SameBytes (means tls13 "NamedGroupList" c)
        ⟦<NamedGroupList as Size>⟧.format }
    ensures values { (v : NamedGroupList) → SpelledAs ⟦<NamedGroupList as Size>⟧.format
        (⟦<NamedGroupList as Size>⟧.plain v) (NamedGroupListSays v) }
{}

/// `NewSessionTicket`.
pub fn new_session_ticket_is_as_printed()
    ensures bytes { (c : Tree) → SameBytes (means tls13 "NewSessionTicket" c)
        ⟦<NewSessionTicket as Size>⟧.format }
    ensures values { (v : NewSessionTicket) → SpelledAs ⟦<NewSessionTicket as Size>⟧.format
        (⟦<NewSessionTicket as Size>⟧.plain v) (NewSessionTicketSays v) }
{}

/// `OIDFilter`.
pub fn oid_filter_is_as_printed()
    ensures bytes { (c : Tree) → SameBytes (means tls13 "OIDFilter" c)
        ⟦<OIDFilter as Size>⟧.format }
    ensures values { (v : OIDFilter) → SpelledAs ⟦<OIDFilter as Size>⟧.format
        (⟦<OIDFilter as Size>⟧.plain v) (OIDFilterSays v) }
{}

/// `OIDFilterExtension`.
pub fn oid_filter_extension_is_as_printed()
    ensures bytes { (c : Tree) → SameBytes (means tls13 "OIDFilterExtension" c)
        ⟦<OIDFilterExtension as Size>⟧.format }
    ensures values { (v : OIDFilterExtension) → SpelledAs ⟦<OIDFilterExtension as Size>⟧.format
        (⟦<OIDFilterExtension as Size>⟧.plain v) (OIDFilterExtensionSays v) }
{}

/// `OfferedPsks`.
pub fn offered_psks_is_as_printed()
    ensures bytes { (c : Tree) → SameBytes (means tls13 "OfferedPsks" c)
        ⟦<OfferedPsks as Size>⟧.format }
    ensures values { (v : OfferedPsks) → SpelledAs ⟦<OfferedPsks as Size>⟧.format
        (⟦<OfferedPsks as Size>⟧.plain v) (OfferedPsksSays v) }
{}

/// `PostHandshakeAuth`.
pub fn post_handshake_auth_is_as_printed()
    ensures bytes { (c : Tree) → SameBytes (means tls13 "PostHandshakeAuth" c)
        ⟦<PostHandshakeAuth as Size>⟧.format }
    ensures values { (v : PostHandshakeAuth) → SpelledAs ⟦<PostHandshakeAuth as Size>⟧.format
        (⟦<PostHandshakeAuth as Size>⟧.plain v) (PostHandshakeAuthSays v) }
{}

/// `PreSharedKeyExtension`.
pub fn pre_shared_key_extension_is_as_printed()
    ensures bytes { (c : Tree) → SameBytes (means tls13 "PreSharedKeyExtension" c)
        (⟦<PreSharedKeyExtension as SizeFor<HandshakeType>>⟧.format_for c) }
    ensures values { (c : Tree) (v : PreSharedKeyExtension) →
        SpelledAs (⟦<PreSharedKeyExtension as SizeFor<HandshakeType>>⟧.format_for c)
        (⟦<PreSharedKeyExtension as SizeFor<HandshakeType>>⟧.plain v)
        (PreSharedKeyExtensionSays c v) }
{}

/// `ProtocolVersionX0303`.
pub fn protocol_version_x0303_is_as_printed()
    ensures bytes { (c : Tree) → SameBytes (part_means tls13 "ClientHello" "legacy_version" c)
        ⟦<ProtocolVersionX0303 as Size>⟧.format }
    ensures values { (v : ProtocolVersionX0303) → SpelledAs ⟦<ProtocolVersionX0303 as Size>⟧.format
        (⟦<ProtocolVersionX0303 as Size>⟧.plain v) (ProtocolVersionX0303Says v) }
{}

/// `PskIdentity`.
pub fn psk_identity_is_as_printed()
    ensures bytes { (c : Tree) → SameBytes (means tls13 "PskIdentity" c)
        ⟦<PskIdentity as Size>⟧.format }
    ensures values { (v : PskIdentity) → SpelledAs ⟦<PskIdentity as Size>⟧.format
        (⟦<PskIdentity as Size>⟧.plain v) (PskIdentitySays v) }
{}

/// `PskKeyExchangeMode`.
pub fn psk_key_exchange_mode_is_as_printed()
    ensures bytes { (c : Tree) → SameBytes (means tls13 "PskKeyExchangeMode" c)
        ⟦<PskKeyExchangeMode as Size>⟧.format }
    ensures values { (v : PskKeyExchangeMode) → SpelledAs ⟦<PskKeyExchangeMode as Size>⟧.format
        (⟦<PskKeyExchangeMode as Size>⟧.plain v) (PskKeyExchangeModeSays v) }
    ensures names { psk_key_exchange_mode_names ≡ names_in tls13 "PskKeyExchangeMode" }
{}

/// `PskKeyExchangeModes`.
pub fn psk_key_exchange_modes_is_as_printed()
    ensures bytes { (c : Tree) → SameBytes (means tls13 "PskKeyExchangeModes" c)
        ⟦<PskKeyExchangeModes as Size>⟧.format }
    ensures values { (v : PskKeyExchangeModes) → SpelledAs ⟦<PskKeyExchangeModes as Size>⟧.format
        (⟦<PskKeyExchangeModes as Size>⟧.plain v) (PskKeyExchangeModesSays v) }
{}

/// `ServerHello`.
pub fn server_hello_is_as_printed()
    ensures bytes { (c : Tree) → SameBytes (means tls13 "ServerHello" c)
        ⟦<ServerHello as Size>⟧.format }
    ensures values { (v : ServerHello) → SpelledAs ⟦<ServerHello as Size>⟧.format
        (⟦<ServerHello as Size>⟧.plain v) (ServerHelloSays v) }
{}

/// `SignatureScheme`.
pub fn signature_scheme_is_as_printed()
    ensures bytes { (c : Tree) → SameBytes (means tls13 "SignatureScheme" c)
        ⟦<SignatureScheme as Size>⟧.format }
    ensures values { (v : SignatureScheme) → SpelledAs ⟦<SignatureScheme as Size>⟧.format
        (⟦<SignatureScheme as Size>⟧.plain v) (SignatureSchemeSays v) }
    ensures names { signature_scheme_names ≡ names_in tls13 "SignatureScheme" }
{}

/// `SignatureSchemeList`.
pub fn signature_scheme_list_is_as_printed()
    ensures bytes { (c : Tree) → SameBytes (means tls13 "SignatureSchemeList" c)
        ⟦<SignatureSchemeList as Size>⟧.format }
    ensures values { (v : SignatureSchemeList) → SpelledAs ⟦<SignatureSchemeList as Size>⟧.format
        (⟦<SignatureSchemeList as Size>⟧.plain v) (SignatureSchemeListSays v) }
{}

/// `SupportedVersions`.
pub fn supported_versions_is_as_printed()
    ensures bytes { (c : Tree) → SameBytes (means tls13 "SupportedVersions" c)
        (⟦<SupportedVersions as SizeFor<HandshakeType>>⟧.format_for c) }
    ensures values { (c : Tree) (v : SupportedVersions) →
        SpelledAs (⟦<SupportedVersions as SizeFor<HandshakeType>>⟧.format_for c)
        (⟦<SupportedVersions as SizeFor<HandshakeType>>⟧.plain v) (SupportedVersionsSays c v) }
{}

/// `TLSCiphertext`.
pub fn tls_ciphertext_is_as_printed()
    ensures bytes { (c : Tree) → SameBytes (means tls13 "TLSCiphertext" c)
        ⟦<TLSCiphertext as Size>⟧.format }
    ensures values { (v : TLSCiphertext) → SpelledAs ⟦<TLSCiphertext as Size>⟧.format
        (⟦<TLSCiphertext as Size>⟧.plain v) (TLSCiphertextSays v) }
{}

/// `TLSPlaintext`.
pub fn tls_plaintext_is_as_printed()
    ensures bytes { (c : Tree) → SameBytes (means tls13 "TLSPlaintext" c)
        ⟦<TLSPlaintext as Size>⟧.format }
    ensures values { (v : TLSPlaintext) → SpelledAs ⟦<TLSPlaintext as Size>⟧.format
        (⟦<TLSPlaintext as Size>⟧.plain v) (TLSPlaintextSays v) }
{}
