//! The laws of formats that a context decides, of values inside a length, and of padding.
ghost use Rattle.tls_codec_grammar.specs.Tree.{Tree};
ghost use Rattle.std.specs.Prelude.{Bool};
ghost use Rattle.tls_codec_grammar.specs.Contexts.{present_format, then_format};
ghost use Rattle.tls_codec_grammar.specs.Format.{fields_format};
ghost use Rattle.tls_codec_grammar.specs.Inside.{bytes_to_end_format, enclosed_format, zeros_format};
ghost use Rattle.tls_codec_grammar.specs.Lawful.{MeetsLaws, MeetsLawsInside};

use crate::context::SizeFor;
use crate::traits::Size;
use tls_codec_grammar::LengthField;

/// Formats of a context with what it decides, of payloads that are there or not, and of values inside a length meet the
/// laws, if those of their parts do. A value with zeros or bytes after it, up to the end, meets those of what is inside a
/// length.
pub fn contexts_are_lawful<C: Size, T: SizeFor<C>, F: LengthField>()
    ensures pairs { MeetsLaws (then_format C.format T.format_for) }
    ensures payloads { (there : Bool) → MeetsLaws (present_format there C.format) }
    ensures enclosed { (c : Tree) → MeetsLaws (enclosed_format F.field (T.format_for c)) }
    ensures padded { (c : Tree) → MeetsLawsInside (fields_format (T.format_for c) zeros_format) }
    ensures to_end { (c : Tree)
        → MeetsLawsInside (fields_format (T.format_for c) bytes_to_end_format) }
{}
