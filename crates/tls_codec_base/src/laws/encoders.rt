//! An encoder rejects only a value without an encoding.
ghost use Rattle.std.specs.Prelude.{ℕ, ◌+◌, List, length};
ghost use Rattle.tls_codec_wire.specs.Device.{Received};
ghost use Rattle.tls_codec_wire.specs.Transfer.{WriteRefused};
ghost use Rattle.tls_codec_wire.specs.declared.error.Error.{Error};
ghost use Rattle.tls_codec_grammar.specs.Encoding.{AppendsForm, Makes, Writes};
ghost use Rattle.tls_codec_grammar.specs.Shortest.{IsShortest};
ghost use Rattle.tls_codec_grammar.specs.Tree.{Tree};
ghost use Rattle.tls_codec_base.specs.Encoders.{NoVectorOf};

use crate::traits::Size;
use tls_codec_wire::Sink;

/// A value that has a canonical encoding is rejected only where the sink fails, which has received
/// a prefix of it; because memory ran out; or because the vector, with what it had, would pass
/// `isize::MAX` bytes.
pub fn encoders_refuse_only_what_has_no_form<T: Size, W: Sink>()
    ensures sent { (form : List ℕ) (v : Tree) (old new : W) (e : Error)
        → IsShortest T.format.spells form v → Writes T.format v W.Sink old new (Err e)
        → WriteRefused (W.counts old) (W.counts new) e }
    ensures begun { (form : List ℕ) (v : Tree) (old new : W) (e : Error)
        → IsShortest T.format.spells form v → Writes T.format v W.Sink old new (Err e)
        → Received (W.received old) (W.received new) form }
    ensures made { (form : List ℕ) (v : Tree) (e : Error)
        → IsShortest T.format.spells form v → Makes T.format v (Err e)
        → NoVectorOf (length form) e }
    ensures appended { (form old new : List ℕ) (v : Tree) (e : Error)
        → IsShortest T.format.spells form v → AppendsForm T.format v old new (Err e)
        → NoVectorOf (length old + length form) e }
{}
