//! Each type of `mls` has the bytes that its text means.
//! Each value's bytes are those of its parts, by their names.
ghost use Rattle.tls_codec_grammar.specs.Tree.{Tree};
ghost use Rattle.tls_presentation.specs.Meaning.{SameBytes, means, part_means};
ghost use Rattle.tls_presentation.specs.Says.{SpelledAs};
ghost use Rattle.mls_laws.specs.Definitions.{mls};
ghost use Rattle.mls_laws.specs.Says.{AuthenticatedContentSays, AuthenticatedContentTBMSays, ConfirmedTranscriptHashInputSays, ContentTypeSays, FramedContentSays, FramedContentAuthDataSays, FramedContentBodySays, FramedContentTBSSays, InterimTranscriptHashInputSays, MLSMessageSays, MLSMessageBodySays, PrivateContentSays, PrivateContentAADSays, PrivateMessageSays, PrivateMessageContentSays, PublicMessageSays, SenderSays, SenderDataSays, SenderDataAADSays, SenderTypeSays, WireFormatSays};
ghost use Rattle.mls.specs.declared.authenticated_content.AuthenticatedContent.{AuthenticatedContent};
ghost use Rattle.mls.specs.declared.authenticated_content_tbm.AuthenticatedContentTBM.{AuthenticatedContentTBM};
ghost use Rattle.mls.specs.declared.confirmed_transcript_hash_input.ConfirmedTranscriptHashInput.{ConfirmedTranscriptHashInput};
ghost use Rattle.mls.specs.declared.content_type.ContentType.{ContentType};
ghost use Rattle.mls.specs.declared.framed_content.FramedContent.{FramedContent};
ghost use Rattle.mls.specs.declared.framed_content_auth_data.FramedContentAuthData.{FramedContentAuthData};
ghost use Rattle.mls.specs.declared.framed_content_body.FramedContentBody.{FramedContentBody};
ghost use Rattle.mls.specs.declared.framed_content_tbs.FramedContentTBS.{FramedContentTBS};
ghost use Rattle.mls.specs.declared.interim_transcript_hash_input.InterimTranscriptHashInput.{InterimTranscriptHashInput};
ghost use Rattle.mls.specs.declared.mls_message.MLSMessage.{MLSMessage};
ghost use Rattle.mls.specs.declared.mls_message_body.MLSMessageBody.{MLSMessageBody};
ghost use Rattle.mls.specs.declared.private_content.PrivateContent.{PrivateContent};
ghost use Rattle.mls.specs.declared.private_content_aad.PrivateContentAAD.{PrivateContentAAD};
ghost use Rattle.mls.specs.declared.private_message.PrivateMessage.{PrivateMessage};
ghost use Rattle.mls.specs.declared.private_message_content.PrivateMessageContent.{PrivateMessageContent};
ghost use Rattle.mls.specs.declared.public_message.PublicMessage.{PublicMessage};
ghost use Rattle.mls.specs.declared.sender.Sender.{Sender};
ghost use Rattle.mls.specs.declared.sender_data.SenderData.{SenderData};
ghost use Rattle.mls.specs.declared.sender_data_aad.SenderDataAAD.{SenderDataAAD};
ghost use Rattle.mls.specs.declared.sender_type.SenderType.{SenderType};
ghost use Rattle.mls.specs.declared.wire_format.WireFormat.{WireFormat};
ghost use Rattle.mls.specs.ContentType.{content_type_code, content_type_name};
ghost use Rattle.mls.specs.SenderType.{sender_type_code, sender_type_name};
ghost use Rattle.mls.specs.WireFormat.{wire_format_names};
ghost use Rattle.std.specs.Prelude.{◌≡◌};
ghost use Rattle.tls_presentation.specs.Says.{names_in, value_number};

use mls::{
    AuthenticatedContent, AuthenticatedContentTBM, ConfirmedTranscriptHashInput, ContentType,
    FramedContent, FramedContentAuthData, FramedContentBody, FramedContentTBS,
    InterimTranscriptHashInput, MLSMessage, MLSMessageBody, PrivateContent, PrivateContentAAD,
    PrivateMessage, PrivateMessageContent, PublicMessage, Sender, SenderData, SenderDataAAD,
    SenderType, WireFormat,
};
use tls_codec::{Size, SizeFor};

/// `AuthenticatedContent`.
pub fn authenticated_content_is_as_printed()
    ensures bytes { (c : Tree) → SameBytes (means mls "AuthenticatedContent" c)
        ⟦<AuthenticatedContent as Size>⟧.format }
    ensures values { (v : AuthenticatedContent) → SpelledAs ⟦<AuthenticatedContent as Size>⟧.format
        (⟦<AuthenticatedContent as Size>⟧.plain v) (AuthenticatedContentSays v) }
{}

/// `AuthenticatedContentTBM`.
pub fn authenticated_content_tbm_is_as_printed()
    ensures bytes { (c : Tree) → SameBytes (means mls "AuthenticatedContentTBM" c)
        ⟦<AuthenticatedContentTBM<'static> as Size>⟧.format }
    ensures values { (v : AuthenticatedContentTBM) →
        SpelledAs ⟦<AuthenticatedContentTBM<'static> as Size>⟧.format
        (⟦<AuthenticatedContentTBM<'static> as Size>⟧.plain v) (AuthenticatedContentTBMSays v) }
{}

/// `ConfirmedTranscriptHashInput`.
pub fn confirmed_transcript_hash_input_is_as_printed()
    ensures bytes { (c : Tree) → SameBytes (means mls "ConfirmedTranscriptHashInput" c)
        ⟦<ConfirmedTranscriptHashInput<'static> as Size>⟧.format }
    ensures values { (v : ConfirmedTranscriptHashInput) →
        SpelledAs ⟦<ConfirmedTranscriptHashInput<'static> as Size>⟧.format
        (⟦<ConfirmedTranscriptHashInput<'static> as Size>⟧.plain v)
        (ConfirmedTranscriptHashInputSays v) }
{}

/// `ContentType`.
pub fn content_type_is_as_printed()
    ensures bytes { (c : Tree) → SameBytes (means mls "ContentType" c)
        ⟦<ContentType as Size>⟧.format }
    ensures values { (v : ContentType) → SpelledAs ⟦<ContentType as Size>⟧.format
        (⟦<ContentType as Size>⟧.plain v) (ContentTypeSays v) }
    ensures names { (v : ContentType) → value_number mls "ContentType" (content_type_name v)
        ≡ content_type_code v }
{}

/// `FramedContent`.
pub fn framed_content_is_as_printed()
    ensures bytes { (c : Tree) → SameBytes (means mls "FramedContent" c)
        ⟦<FramedContent as Size>⟧.format }
    ensures values { (v : FramedContent) → SpelledAs ⟦<FramedContent as Size>⟧.format
        (⟦<FramedContent as Size>⟧.plain v) (FramedContentSays v) }
{}

/// `FramedContentAuthData`.
pub fn framed_content_auth_data_is_as_printed()
    ensures bytes { (c : Tree) → SameBytes (means mls "FramedContentAuthData" c)
        (⟦<FramedContentAuthData as SizeFor<ContentType>>⟧.format_for c) }
    ensures values { (c : Tree) (v : FramedContentAuthData) →
        SpelledAs (⟦<FramedContentAuthData as SizeFor<ContentType>>⟧.format_for c)
        (⟦<FramedContentAuthData as SizeFor<ContentType>>⟧.plain v)
        (FramedContentAuthDataSays c v) }
{}

/// `FramedContentBody`.
pub fn framed_content_body_is_as_printed()
    ensures bytes { (c : Tree) → SameBytes (part_means mls "FramedContent" "body" c)
        ⟦<FramedContentBody as Size>⟧.format }
    ensures values { (v : FramedContentBody) → SpelledAs ⟦<FramedContentBody as Size>⟧.format
        (⟦<FramedContentBody as Size>⟧.plain v) (FramedContentBodySays v) }
{}

/// `FramedContentTBS`.
pub fn framed_content_tbs_is_as_printed()
    ensures bytes { (c : Tree) → SameBytes (means mls "FramedContentTBS" c)
        ⟦<FramedContentTBS<'static> as Size>⟧.format }
    ensures values { (v : FramedContentTBS) → SpelledAs ⟦<FramedContentTBS<'static> as Size>⟧.format
        (⟦<FramedContentTBS<'static> as Size>⟧.plain v) (FramedContentTBSSays v) }
{}

/// `InterimTranscriptHashInput`.
pub fn interim_transcript_hash_input_is_as_printed()
    ensures bytes { (c : Tree) → SameBytes (means mls "InterimTranscriptHashInput" c)
        ⟦<InterimTranscriptHashInput<'static> as Size>⟧.format }
    ensures values { (v : InterimTranscriptHashInput) →
        SpelledAs ⟦<InterimTranscriptHashInput<'static> as Size>⟧.format
        (⟦<InterimTranscriptHashInput<'static> as Size>⟧.plain v)
        (InterimTranscriptHashInputSays v) }
{}

/// `MLSMessage`.
pub fn mls_message_is_as_printed()
    ensures bytes { (c : Tree) → SameBytes (means mls "MLSMessage" c)
        ⟦<MLSMessage as Size>⟧.format }
    ensures values { (v : MLSMessage) → SpelledAs ⟦<MLSMessage as Size>⟧.format
        (⟦<MLSMessage as Size>⟧.plain v) (MLSMessageSays v) }
{}

/// `MLSMessageBody`.
pub fn mls_message_body_is_as_printed()
    ensures bytes { (c : Tree) → SameBytes (part_means mls "MLSMessage" "body" c)
        ⟦<MLSMessageBody as Size>⟧.format }
    ensures values { (v : MLSMessageBody) → SpelledAs ⟦<MLSMessageBody as Size>⟧.format
        (⟦<MLSMessageBody as Size>⟧.plain v) (MLSMessageBodySays v) }
{}

/// `PrivateContent`.
pub fn private_content_is_as_printed()
    ensures bytes { (c : Tree) → SameBytes (part_means mls "PrivateMessageContent" "content" c)
        (⟦<PrivateContent as SizeFor<ContentType>>⟧.format_for c) }
    ensures values { (c : Tree) (v : PrivateContent) →
        SpelledAs (⟦<PrivateContent as SizeFor<ContentType>>⟧.format_for c)
        (⟦<PrivateContent as SizeFor<ContentType>>⟧.plain v) (PrivateContentSays c v) }
{}

/// `PrivateContentAAD`.
pub fn private_content_aad_is_as_printed()
    ensures bytes { (c : Tree) → SameBytes (means mls "PrivateContentAAD" c)
        ⟦<PrivateContentAAD<'static> as Size>⟧.format }
    ensures values { (v : PrivateContentAAD) →
        SpelledAs ⟦<PrivateContentAAD<'static> as Size>⟧.format
        (⟦<PrivateContentAAD<'static> as Size>⟧.plain v) (PrivateContentAADSays v) }
{}

/// `PrivateMessage`.
pub fn private_message_is_as_printed()
    ensures bytes { (c : Tree) → SameBytes (means mls "PrivateMessage" c)
        ⟦<PrivateMessage as Size>⟧.format }
    ensures values { (v : PrivateMessage) → SpelledAs ⟦<PrivateMessage as Size>⟧.format
        (⟦<PrivateMessage as Size>⟧.plain v) (PrivateMessageSays v) }
{}

/// `PrivateMessageContent`.
pub fn private_message_content_is_as_printed()
    ensures bytes { (c : Tree) → SameBytes (means mls "PrivateMessageContent" c)
        (⟦<PrivateMessageContent as SizeFor<ContentType>>⟧.format_for c) }
    ensures values { (c : Tree) (v : PrivateMessageContent) →
        SpelledAs (⟦<PrivateMessageContent as SizeFor<ContentType>>⟧.format_for c)
        (⟦<PrivateMessageContent as SizeFor<ContentType>>⟧.plain v)
        (PrivateMessageContentSays c v) }
{}

/// `PublicMessage`.
pub fn public_message_is_as_printed()
    ensures bytes { (c : Tree) → SameBytes (means mls "PublicMessage" c)
        ⟦<PublicMessage as Size>⟧.format }
    ensures values { (v : PublicMessage) → SpelledAs ⟦<PublicMessage as Size>⟧.format
        (⟦<PublicMessage as Size>⟧.plain v) (PublicMessageSays v) }
{}

/// `Sender`.
pub fn sender_is_as_printed()
    ensures bytes { (c : Tree) → SameBytes (means mls "Sender" c) ⟦<Sender as Size>⟧.format }
    ensures values { (v : Sender) → SpelledAs ⟦<Sender as Size>⟧.format (⟦<Sender as Size>⟧.plain v)
        (SenderSays v) }
{}

/// `SenderData`.
pub fn sender_data_is_as_printed()
    ensures bytes { (c : Tree) → SameBytes (means mls "SenderData" c)
        ⟦<SenderData as Size>⟧.format }
    ensures values { (v : SenderData) → SpelledAs ⟦<SenderData as Size>⟧.format
        (⟦<SenderData as Size>⟧.plain v) (SenderDataSays v) }
{}

/// `SenderDataAAD`.
pub fn sender_data_aad_is_as_printed()
    ensures bytes { (c : Tree) → SameBytes (means mls "SenderDataAAD" c)
        ⟦<SenderDataAAD<'static> as Size>⟧.format }
    ensures values { (v : SenderDataAAD) → SpelledAs ⟦<SenderDataAAD<'static> as Size>⟧.format
        (⟦<SenderDataAAD<'static> as Size>⟧.plain v) (SenderDataAADSays v) }
{}

/// `SenderType`.
pub fn sender_type_is_as_printed()
    ensures bytes { (c : Tree) → SameBytes (means mls "SenderType" c)
        ⟦<SenderType as Size>⟧.format }
    ensures values { (v : SenderType) → SpelledAs ⟦<SenderType as Size>⟧.format
        (⟦<SenderType as Size>⟧.plain v) (SenderTypeSays v) }
    ensures names { (v : SenderType) → value_number mls "SenderType" (sender_type_name v)
        ≡ sender_type_code v }
{}

/// `WireFormat`.
pub fn wire_format_is_as_printed()
    ensures bytes { (c : Tree) → SameBytes (means mls "WireFormat" c)
        ⟦<WireFormat as Size>⟧.format }
    ensures values { (v : WireFormat) → SpelledAs ⟦<WireFormat as Size>⟧.format
        (⟦<WireFormat as Size>⟧.plain v) (WireFormatSays v) }
    ensures names { wire_format_names ≡ names_in mls "WireFormat" }
{}
