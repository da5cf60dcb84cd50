//! Where the tag of an enum is, and what its case has.
ghost use Rattle.std.specs.Prelude.{ℕ};
ghost use Rattle.tls_codec_grammar.specs.Tagged.{Variants};
ghost use Rattle.tls_codec_outcome.specs.Cases.{HasTagged, IsCaseFrom, IsTagged, case_ends};
ghost use Rattle.tls_codec_outcome.specs.Fields.{span_end};

use crate::fields::{Span, field_at};
use crate::locate::Locate;
use std::marker::PhantomData;
use tls_codec_validate::Validate;

/// An enum, which begins with the tag of its case.
pub trait TaggedEnum {
    ghost TAG_LEN: { ℕ };

    /// How many bytes the tag has.
    const TAG_LEN: usize;

    /// The enum.
    type Enum: Validate;

    // Its cases.
    ghost variants: { Variants };

    ghost is_tagged: { IsTagged TAG_LEN variants Self.Enum.format };

    ghost has_tagged: { HasTagged TAG_LEN variants Self.Enum.format };
}

/// The two parts of an enum: its tag, and what its case has.
pub struct TagAndBody<E> {
    of: PhantomData<E>,
}

impl<E: TaggedEnum> Locate for TagAndBody<E> {
    type Places = (Span, Span);

    ghost format = { E.Enum.format };

    ghost end = { λ places. span_end places.1 };

    ghost are_places = { λ x from places. IsCaseFrom E.TAG_LEN E.variants x from
        places.0 places.1 };

    fn locate(bytes: &[u8], from: usize) -> ((Span, Span), usize) {
        let whole = field_at::<E::Enum>(bytes, from);
        let tag = Span {
            offset: from,
            size: E::TAG_LEN,
        };
        let body = Span {
            offset: from.saturating_add(E::TAG_LEN),
            size: whole.size.saturating_sub(E::TAG_LEN),
        };
        ((tag, body), whole.end())
    }

    ghost lawful = { E.Enum.lawful };

    ghost ends = { λ x from places are. case_ends E.TAG_LEN E.variants E.Enum.format
        E.has_tagged x from places.0 places.1 are };
}
