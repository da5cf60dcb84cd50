//! Where the parts are that another part decides.
ghost use Rattle.std.specs.Prelude.{ℕ};
ghost use Rattle.tls_codec_grammar.specs.Contexts.{then_format};
ghost use Rattle.tls_codec_grammar.specs.Format.{pair_format};
ghost use Rattle.tls_codec_grammar.specs.laws.FormatLaws.{pair_meets};
ghost use Rattle.tls_codec_grammar.specs.laws.ThenLaws.{then_meets};
ghost use Rattle.tls_codec_outcome.specs.Decided.{AreDecided, decided_ends};
ghost use Rattle.tls_codec_outcome.specs.Fields.{span_end};

use crate::fields::{Span, bytes_from, field_for};
use crate::locate::Locate;
use std::marker::PhantomData;
use tls_codec_validate::{ValidateFor, ValidateKeyed};

/// A part, and two after it whose form its value decides (RFC 8446, section 3.8).
pub struct DependentFields<T, U, V> {
    of: PhantomData<(T, U, V)>,
}

impl<T: ValidateKeyed, U: ValidateFor<T>, V: ValidateFor<T>> Locate for DependentFields<T, U, V> {
    type Places = (Span, Span, Span);

    ghost format = { then_format T.format (λ c. pair_format (U.format_for c) (V.format_for c)) };

    ghost end = { λ places. span_end places.2 };

    ghost are_places = { λ x from places. AreDecided T.format U.format_for V.format_for x from
        places.0 places.1 places.2 };

    fn locate(bytes: &[u8], from: usize) -> ((Span, Span, Span), usize) {
        match T::tls_validate_keyed(bytes_from(bytes, from)) {
            Ok(found) => {
                let middle = bytes.len().saturating_sub(found.1.len());
                let first = Span {
                    offset: from,
                    size: middle.saturating_sub(from),
                };
                let second = field_for::<T, U>(&found.0, bytes, middle);
                let third = field_for::<T, V>(&found.0, bytes, second.end());
                ((first, second, third), third.end())
            }
            Err(_) => {
                let nothing = Span::empty(from);
                ((nothing, nothing, nothing), from)
            }
        }
    }

    ghost lawful = { then_meets T.lawful (λ c. pair_meets (U.lawful c) (V.lawful c)) };

    ghost ends = { λ x from places are. decided_ends T.format U.format_for V.format_for x from
        places.0 places.1 places.2 are };
}
