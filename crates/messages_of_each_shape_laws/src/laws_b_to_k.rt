//! Each type of `messages_of_each_shape` has the bytes that its text means.
//! Each value's bytes are those of its parts, by their names.
ghost use Rattle.tls_codec_grammar.specs.Tree.{Tree};
ghost use Rattle.tls_presentation.specs.Meaning.{SameBytes, means, part_means};
ghost use Rattle.tls_presentation.specs.Says.{SpelledAs};
ghost use Rattle.messages_of_each_shape_laws.specs.Definitions.{messages_of_each_shape};
ghost use Rattle.messages_of_each_shape_laws.specs.Says.{BearerSays, BeatSays, BodyKindSays, BodyKindDataSays, BoundedSays, ByVersionSays, CarrierSays, CertificateTypeSays, CertificateTypeDataSays, ClientCertTypeExtensionSays, ClientOrServerExtensionSays, ContentTypeDataSays, EmptyTypeSays, EntriesSays, EntrySays, FormX04Says, FramedSays, HeaderSays, IdentitySays, KindBodySays};
ghost use Rattle.messages_of_each_shape.specs.declared.bearer.Bearer.{Bearer};
ghost use Rattle.messages_of_each_shape.specs.declared.beat.Beat.{Beat};
ghost use Rattle.messages_of_each_shape.specs.declared.body_kind.BodyKind.{BodyKind};
ghost use Rattle.messages_of_each_shape.specs.declared.body_kind_data.BodyKindData.{BodyKindData};
ghost use Rattle.messages_of_each_shape.specs.declared.bounded.Bounded.{Bounded};
ghost use Rattle.messages_of_each_shape.specs.declared.by_version.ByVersion.{ByVersion};
ghost use Rattle.messages_of_each_shape.specs.declared.carrier.Carrier.{Carrier};
ghost use Rattle.messages_of_each_shape.specs.declared.certificate_type.CertificateType.{CertificateType};
ghost use Rattle.messages_of_each_shape.specs.declared.certificate_type_data.CertificateTypeData.{CertificateTypeData};
ghost use Rattle.messages_of_each_shape.specs.declared.client_cert_type_extension.ClientCertTypeExtension.{ClientCertTypeExtension};
ghost use Rattle.messages_of_each_shape.specs.declared.client_or_server_extension.ClientOrServerExtension.{ClientOrServerExtension};
ghost use Rattle.messages_of_each_shape.specs.declared.content_type_data.ContentTypeData.{ContentTypeData};
ghost use Rattle.messages_of_each_shape.specs.declared.empty_type.EmptyType.{EmptyType};
ghost use Rattle.messages_of_each_shape.specs.declared.entries.Entries.{Entries};
ghost use Rattle.messages_of_each_shape.specs.declared.entry.Entry.{Entry};
ghost use Rattle.messages_of_each_shape.specs.declared.form_x04.FormX04.{FormX04};
ghost use Rattle.messages_of_each_shape.specs.declared.framed.Framed.{Framed};
ghost use Rattle.messages_of_each_shape.specs.declared.header.Header.{Header};
ghost use Rattle.messages_of_each_shape.specs.declared.identity.Identity.{Identity};
ghost use Rattle.messages_of_each_shape.specs.declared.kind_body.KindBody.{KindBody};
ghost use Rattle.messages_of_each_shape.specs.BodyKind.{body_kind_code, body_kind_name};
ghost use Rattle.messages_of_each_shape.specs.CertificateType.{certificate_type_code, certificate_type_name};
ghost use Rattle.messages_of_each_shape.specs.ClientOrServerExtension.{client_or_server_extension_code, client_or_server_extension_name};
ghost use Rattle.messages_of_each_shape.specs.EmptyType.{empty_type_names};
ghost use Rattle.std.specs.Prelude.{◌≡◌};
ghost use Rattle.tls_presentation.specs.Says.{names_in, value_number};

use messages_of_each_shape::{
    Bearer, Beat, BodyKind, BodyKindData, Bounded, ByVersion, Carrier, CertificateType,
    CertificateTypeData, ClientCertTypeExtension, ClientOrServerExtension, ContentTypeData,
    EmptyType, Entries, Entry, FormX04, Framed, Header, Identity, KindBody,
};
use tls_codec::{Size, SizeFor};

/// `Bearer`.
pub fn bearer_is_as_printed()
    ensures bytes { (c : Tree) → SameBytes (means messages_of_each_shape "Bearer" c)
        ⟦<Bearer as Size>⟧.format }
    ensures values { (v : Bearer) → SpelledAs ⟦<Bearer as Size>⟧.format (⟦<Bearer as Size>⟧.plain v)
        (BearerSays v) }
{}

/// `Beat`.
pub fn beat_is_as_printed()
    ensures bytes { (c : Tree) → SameBytes (means messages_of_each_shape "Beat" c)
        ⟦<Beat as Size>⟧.format }
    ensures values { (v : Beat) → SpelledAs ⟦<Beat as Size>⟧.format (⟦<Beat as Size>⟧.plain v)
        (BeatSays v) }
{}

/// `BodyKind`.
pub fn body_kind_is_as_printed()
    ensures bytes { (c : Tree) → SameBytes (means messages_of_each_shape "BodyKind" c)
        ⟦<BodyKind as Size>⟧.format }
    ensures values { (v : BodyKind) → SpelledAs ⟦<BodyKind as Size>⟧.format
        (⟦<BodyKind as Size>⟧.plain v) (BodyKindSays v) }
    ensures names { (v : BodyKind) → value_number messages_of_each_shape "BodyKind"
        (body_kind_name v) ≡ body_kind_code v }
{}

/// `BodyKindData`.
pub fn body_kind_data_is_as_printed()
    ensures bytes { (c : Tree) → SameBytes (part_means messages_of_each_shape "KindBody" "body" c)
        (⟦<BodyKindData as SizeFor<BodyKind>>⟧.format_for c) }
    ensures values { (c : Tree) (v : BodyKindData) →
        SpelledAs (⟦<BodyKindData as SizeFor<BodyKind>>⟧.format_for c)
        (⟦<BodyKindData as SizeFor<BodyKind>>⟧.plain v) (BodyKindDataSays c v) }
{}

/// `Bounded`.
pub fn bounded_is_as_printed()
    ensures bytes { (c : Tree) → SameBytes (means messages_of_each_shape "Bounded" c)
        ⟦<Bounded as Size>⟧.format }
    ensures values { (v : Bounded) → SpelledAs ⟦<Bounded as Size>⟧.format
        (⟦<Bounded as Size>⟧.plain v) (BoundedSays v) }
{}

/// `ByVersion`.
pub fn by_version_is_as_printed()
    ensures bytes { (c : Tree) → SameBytes (means messages_of_each_shape "ByVersion" c)
        (⟦<ByVersion as SizeFor<u16>>⟧.format_for c) }
    ensures values { (c : Tree) (v : ByVersion) →
        SpelledAs (⟦<ByVersion as SizeFor<u16>>⟧.format_for c)
        (⟦<ByVersion as SizeFor<u16>>⟧.plain v) (ByVersionSays c v) }
{}

/// `Carrier`.
pub fn carrier_is_as_printed()
    ensures bytes { (c : Tree) → SameBytes (means messages_of_each_shape "Carrier" c)
        ⟦<Carrier as Size>⟧.format }
    ensures values { (v : Carrier) → SpelledAs ⟦<Carrier as Size>⟧.format
        (⟦<Carrier as Size>⟧.plain v) (CarrierSays v) }
{}

/// `CertificateType`.
pub fn certificate_type_is_as_printed()
    ensures bytes { (c : Tree) → SameBytes (means messages_of_each_shape "CertificateType" c)
        ⟦<CertificateType as Size>⟧.format }
    ensures values { (v : CertificateType) → SpelledAs ⟦<CertificateType as Size>⟧.format
        (⟦<CertificateType as Size>⟧.plain v) (CertificateTypeSays v) }
    ensures names { (v : CertificateType) → value_number messages_of_each_shape "CertificateType"
        (certificate_type_name v) ≡ certificate_type_code v }
{}

/// `CertificateTypeData`.
pub fn certificate_type_data_is_as_printed()
    ensures bytes { (c : Tree) → SameBytes (part_means messages_of_each_shape "Entry" "body" c)
        (⟦<CertificateTypeData as SizeFor<CertificateType>>⟧.format_for c) }
    ensures values { (c : Tree) (v : CertificateTypeData) →
        SpelledAs (⟦<CertificateTypeData as SizeFor<CertificateType>>⟧.format_for c)
        (⟦<CertificateTypeData as SizeFor<CertificateType>>⟧.plain v)
        (CertificateTypeDataSays c v) }
{}

/// `ClientCertTypeExtension`.
pub fn client_cert_type_extension_is_as_printed()
    ensures bytes { (c : Tree) →
        SameBytes (means messages_of_each_shape "ClientCertTypeExtension" c)
        (⟦<ClientCertTypeExtension as SizeFor<ClientOrServerExtension>>⟧.format_for c) }
    ensures values { (c : Tree) (v : ClientCertTypeExtension) →
        SpelledAs (⟦<ClientCertTypeExtension as SizeFor<ClientOrServerExtension>>⟧.format_for c)
        (⟦<ClientCertTypeExtension as SizeFor<ClientOrServerExtension>>⟧.plain v)
        (ClientCertTypeExtensionSays c v) }
{}

/// `ClientOrServerExtension`.
pub fn client_or_server_extension_is_as_printed()
    ensures bytes { (c : Tree) →
        SameBytes (means messages_of_each_shape "ClientOrServerExtension" c)
        ⟦<ClientOrServerExtension as Size>⟧.format }
    ensures values { (v : ClientOrServerExtension) →
        SpelledAs ⟦<ClientOrServerExtension as Size>⟧.format
        (⟦<ClientOrServerExtension as Size>⟧.plain v) (ClientOrServerExtensionSays v) }
    ensures names { (v : ClientOrServerExtension) →
        value_number messages_of_each_shape "ClientOrServerExtension"
        (client_or_server_extension_name v) ≡ client_or_server_extension_code v }
{}

/// `ContentTypeData`.
pub fn content_type_data_is_as_printed()
    ensures bytes { (c : Tree) →
        SameBytes (part_means messages_of_each_shape "Framed" "content_type" c)
        ⟦<ContentTypeData as Size>⟧.format }
    ensures values { (v : ContentTypeData) → SpelledAs ⟦<ContentTypeData as Size>⟧.format
        (⟦<ContentTypeData as Size>⟧.plain v) (ContentTypeDataSays v) }
{}

/// `EmptyType`.
pub fn empty_type_is_as_printed()
    ensures bytes { (c : Tree) → SameBytes (means messages_of_each_shape "Empty" c)
        ⟦<EmptyType as Size>⟧.format }
    ensures values { (v : EmptyType) → SpelledAs ⟦<EmptyType as Size>⟧.format
        (⟦<EmptyType as Size>⟧.plain v) (EmptyTypeSays v) }
    ensures names { empty_type_names ≡ names_in messages_of_each_shape "Empty" }
{}

/// `Entries`.
pub fn entries_is_as_printed()
    ensures bytes { (c : Tree) → SameBytes (means messages_of_each_shape "Entries" c)
        (⟦<Entries as SizeFor<CertificateType>>⟧.format_for c) }
    ensures values { (c : Tree) (v : Entries) →
        SpelledAs (⟦<Entries as SizeFor<CertificateType>>⟧.format_for c)
        (⟦<Entries as SizeFor<CertificateType>>⟧.plain v) (EntriesSays c v) }
{}

/// `Entry`.
pub fn entry_is_as_printed()
    ensures bytes { (c : Tree) → SameBytes (means messages_of_each_shape "Entry" c)
        (⟦<Entry as SizeFor<CertificateType>>⟧.format_for c) }
    ensures values { (c : Tree) (v : Entry) →
        SpelledAs (⟦<Entry as SizeFor<CertificateType>>⟧.format_for c)
        (⟦<Entry as SizeFor<CertificateType>>⟧.plain v) (EntrySays c v) }
{}

/// `FormX04`.
pub fn form_x04_is_as_printed()
    ensures bytes { (c : Tree) → SameBytes (part_means messages_of_each_shape "Point" "form" c)
        ⟦<FormX04 as Size>⟧.format }
    ensures values { (v : FormX04) → SpelledAs ⟦<FormX04 as Size>⟧.format
        (⟦<FormX04 as Size>⟧.plain v) (FormX04Says v) }
{}

/// `Framed`.
pub fn framed_is_as_printed()
    ensures bytes { (c : Tree) → SameBytes (means messages_of_each_shape "Framed" c)
        ⟦<Framed as Size>⟧.format }
    ensures values { (v : Framed) → SpelledAs ⟦<Framed as Size>⟧.format (⟦<Framed as Size>⟧.plain v)
        (FramedSays v) }
{}

/// `Header`.
pub fn header_is_as_printed()
    ensures bytes { (c : Tree) → SameBytes (means messages_of_each_shape "Header" c)
        ⟦<Header as Size>⟧.format }
    ensures values { (v : Header) → SpelledAs ⟦<Header as Size>⟧.format (⟦<Header as Size>⟧.plain v)
        (HeaderSays v) }
{}

/// `Identity`.
pub fn identity_is_as_printed()
    ensures bytes { (c : Tree) → SameBytes (means messages_of_each_shape "Identity" c)
        ⟦<Identity as Size>⟧.format }
    ensures values { (v : Identity) → SpelledAs ⟦<Identity as Size>⟧.format
        (⟦<Identity as Size>⟧.plain v) (IdentitySays v) }
{}

/// `KindBody`.
pub fn kind_body_is_as_printed()
    ensures bytes { (c : Tree) → SameBytes (means messages_of_each_shape "KindBody" c)
        (⟦<KindBody as SizeFor<BodyKind>>⟧.format_for c) }
    ensures values { (c : Tree) (v : KindBody) →
        SpelledAs (⟦<KindBody as SizeFor<BodyKind>>⟧.format_for c)
        (⟦<KindBody as SizeFor<BodyKind>>⟧.plain v) (KindBodySays c v) }
{}
