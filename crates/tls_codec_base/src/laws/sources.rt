//! What an error says of the bytes of a source, whether it reports those to come or not.
ghost use Rattle.std.specs.Prelude.{◌≡◌, ℕ, List, None, Some};
ghost use Rattle.tls_codec_wire.specs.declared.error.Error.{Error};
ghost use Rattle.tls_codec_grammar.specs.Decoding.{Named, RefusesFromSource, RefusesSeen};
ghost use Rattle.tls_codec_grammar.specs.Tree.{Tree};
ghost use Rattle.tls_codec_grammar.specs.Grammar.{Reading};
ghost use Rattle.tls_codec_base.specs.PartNames.{SawSpelling};

use crate::traits::Deserialize;
use tls_codec_wire::Source;

/// A source that reports the bytes to come is rejected for those. One that never reports any, such
/// as a file or a socket, is rejected for the bytes that it gave: no prefix of them is an encoding,
/// a fault was counted, or memory ran out.
///
/// What is read to the end of a source is all that was to come, or all that was given.
pub fn sources_are_refused_for_what_they_show<T: Deserialize, R: Source>()
    ensures reported { (x : List ℕ) (old new : R) (e : Error) → R.coming old ≡ Some x
        → RefusesFromSource T.format R.Source old new e
        → RefusesSeen T.format.spells T.format.lean x (R.counts old) (R.counts new) e }
    ensures reported_names { (x : List ℕ) (old new : R) (e : Error) → R.coming old ≡ Some x
        → Named T.format T.names R.Source old new e
        → T.names x (R.counts old) (R.counts new) e }
    ensures unreported { (old new : R) (e : Error) → ((s : R) → R.coming s ≡ None)
        → RefusesFromSource T.format R.Source old new e
        → (x : List ℕ) × R.given old x new
        × RefusesSeen T.format.spells T.format.lean x (R.counts old) (R.counts new) e }
    ensures unreported_names { (old new : R) (e : Error) → ((s : R) → R.coming s ≡ None)
        → Named T.format T.names R.Source old new e
        → (x : List ℕ) × R.given old x new × T.names x (R.counts old) (R.counts new) e }
    ensures whole { (x : List ℕ) (old new : R) (v : Tree) → R.coming old ≡ Some x
        → SawSpelling R.Source T.format.spells old new v → T.format.spells Reading x v }
{}
