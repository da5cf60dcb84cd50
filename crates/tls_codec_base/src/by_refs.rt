//! [`ByRef2`] to [`ByRef9`]: two to nine borrowed values, written in a row, for messages of four fields and
//! more.
//!
//! Each is the tuple of its values. From four on it is a tuple of the smaller ones, and its value is
//! read as the tuple that nests in the same way: `ByRef5` as `((A, B, C), (D, E))`. All of its values
//! are borrowed for one lifetime, so that a tuple of these is one type to the borrow checker.
ghost use Rattle.tls_codec_grammar.specs.Format.{pair_format, triple_format};
ghost use Rattle.tls_codec_grammar.specs.laws.FormatLaws.{pair_meets, triple_meets};
ghost use Rattle.tls_codec_base.specs.OwnMessages.{pair_tree, triple_tree};

use crate::by_ref::ByRef;
use crate::traits::{Serialize, Size};
use tls_codec_wire::{Error, Sink};

/// Two values in a row, as the tuple `(A, B)`.
#[derive(Drop)]
pub struct ByRef2<'a, A, B>(pub &'a A, pub &'a B);

impl<'a, A: Size, B: Size> Size for ByRef2<'a, A, B> {
    ghost plain = { λ v. pair_tree (A.plain v.0.now) (B.plain v.1.now) };

    ghost format = { pair_format A.format B.format };

    fn tls_serialized_len(&self) -> usize {
        (ByRef(self.0), ByRef(self.1)).tls_serialized_len()
    }

    ghost lawful = { pair_meets A.lawful B.lawful };
}

impl<'a, A: Serialize, B: Serialize> Serialize for ByRef2<'a, A, B> {
    fn tls_serialize<W: Sink>(&self, writer: &mut W) -> Result<usize, Error> {
        (ByRef(self.0), ByRef(self.1)).tls_serialize(writer)
    }

    #[inline(always)]
    fn tls_serialize_into(&self, out: &mut Vec<u8>) -> Result<usize, Error> {
        (ByRef(self.0), ByRef(self.1)).tls_serialize_into(out)
    }
}

/// Three values in a row, as the tuple `(A, B, C)`.
#[derive(Drop)]
pub struct ByRef3<'a, A, B, C>(pub &'a A, pub &'a B, pub &'a C);

impl<'a, A: Size, B: Size, C: Size> Size for ByRef3<'a, A, B, C> {
    ghost plain = { λ v. triple_tree (A.plain v.0.now) (B.plain v.1.now) (C.plain v.2.now) };

    ghost format = { triple_format A.format B.format C.format };

    fn tls_serialized_len(&self) -> usize {
        (ByRef(self.0), ByRef(self.1), ByRef(self.2)).tls_serialized_len()
    }

    ghost lawful = { triple_meets A.lawful B.lawful C.lawful };
}

impl<'a, A: Serialize, B: Serialize, C: Serialize> Serialize for ByRef3<'a, A, B, C> {
    fn tls_serialize<W: Sink>(&self, writer: &mut W) -> Result<usize, Error> {
        (ByRef(self.0), ByRef(self.1), ByRef(self.2)).tls_serialize(writer)
    }

    #[inline(always)]
    fn tls_serialize_into(&self, out: &mut Vec<u8>) -> Result<usize, Error> {
        (ByRef(self.0), ByRef(self.1), ByRef(self.2)).tls_serialize_into(out)
    }
}

/// Four values in a row, as the tuple `((A, B), (C, D))`.
#[derive(Drop)]
pub struct ByRef4<'a, A, B, C, D>(pub &'a A, pub &'a B, pub &'a C, pub &'a D);

impl<'a, A: Size, B: Size, C: Size, D: Size> Size for ByRef4<'a, A, B, C, D> {
    ghost plain = { λ v. pair_tree (pair_tree (A.plain v.0.now) (B.plain v.1.now))
        (pair_tree (C.plain v.2.now) (D.plain v.3.now)) };

    ghost format = { pair_format (pair_format A.format B.format) (pair_format C.format D.format) };

    fn tls_serialized_len(&self) -> usize {
        (ByRef2(self.0, self.1), ByRef2(self.2, self.3)).tls_serialized_len()
    }

    ghost lawful = { pair_meets (pair_meets A.lawful B.lawful) (pair_meets C.lawful D.lawful) };
}

impl<'a, A: Serialize, B: Serialize, C: Serialize, D: Serialize> Serialize
    for ByRef4<'a, A, B, C, D> {
    fn tls_serialize<W: Sink>(&self, writer: &mut W) -> Result<usize, Error> {
        (ByRef2(self.0, self.1), ByRef2(self.2, self.3)).tls_serialize(writer)
    }

    #[inline(always)]
    fn tls_serialize_into(&self, out: &mut Vec<u8>) -> Result<usize, Error> {
        (ByRef2(self.0, self.1), ByRef2(self.2, self.3)).tls_serialize_into(out)
    }
}

/// Five values in a row, as the tuple `((A, B, C), (D, E))`.
#[derive(Drop)]
pub struct ByRef5<'a, A, B, C, D, E>(pub &'a A, pub &'a B, pub &'a C, pub &'a D, pub &'a E);

impl<'a, A: Size, B: Size, C: Size, D: Size, E: Size> Size for ByRef5<'a, A, B, C, D, E> {
    ghost plain = { λ v. pair_tree
        (triple_tree (A.plain v.0.now) (B.plain v.1.now) (C.plain v.2.now))
        (pair_tree (D.plain v.3.now) (E.plain v.4.now)) };

    ghost format = { pair_format (triple_format A.format B.format C.format)
        (pair_format D.format E.format) };

    fn tls_serialized_len(&self) -> usize {
        (ByRef3(self.0, self.1, self.2), ByRef2(self.3, self.4)).tls_serialized_len()
    }

    ghost lawful = { pair_meets (triple_meets A.lawful B.lawful C.lawful)
        (pair_meets D.lawful E.lawful) };
}

impl<'a, A: Serialize, B: Serialize, C: Serialize, D: Serialize, E: Serialize> Serialize
    for ByRef5<'a, A, B, C, D, E> {
    fn tls_serialize<W: Sink>(&self, writer: &mut W) -> Result<usize, Error> {
        (ByRef3(self.0, self.1, self.2), ByRef2(self.3, self.4)).tls_serialize(writer)
    }

    #[inline(always)]
    fn tls_serialize_into(&self, out: &mut Vec<u8>) -> Result<usize, Error> {
        (ByRef3(self.0, self.1, self.2), ByRef2(self.3, self.4)).tls_serialize_into(out)
    }
}

/// Six values in a row, as the tuple `((A, B, C), (D, E, F))`.
#[derive(Drop)]
pub struct ByRef6<'a, A, B, C, D, E, F>(
    pub &'a A,
    pub &'a B,
    pub &'a C,
    pub &'a D,
    pub &'a E,
    pub &'a F,
);

impl<'a, A: Size, B: Size, C: Size, D: Size, E: Size, F: Size> Size
    for ByRef6<'a, A, B, C, D, E, F> {
    ghost plain = { λ v. pair_tree
        (triple_tree (A.plain v.0.now) (B.plain v.1.now) (C.plain v.2.now))
        (triple_tree (D.plain v.3.now) (E.plain v.4.now) (F.plain v.5.now)) };

    ghost format = { pair_format (triple_format A.format B.format C.format)
        (triple_format D.format E.format F.format) };

    fn tls_serialized_len(&self) -> usize {
        (
            ByRef3(self.0, self.1, self.2),
            ByRef3(self.3, self.4, self.5),
        )
            .tls_serialized_len()
    }

    ghost lawful = { pair_meets (triple_meets A.lawful B.lawful C.lawful)
        (triple_meets D.lawful E.lawful F.lawful) };
}

impl<
    'a,
    A: Serialize,
    B: Serialize,
    C: Serialize,
    D: Serialize,
    E: Serialize,
    F: Serialize,
> Serialize for ByRef6<'a, A, B, C, D, E, F> {
    fn tls_serialize<W: Sink>(&self, writer: &mut W) -> Result<usize, Error> {
        (
            ByRef3(self.0, self.1, self.2),
            ByRef3(self.3, self.4, self.5),
        )
            .tls_serialize(writer)
    }

    #[inline(always)]
    fn tls_serialize_into(&self, out: &mut Vec<u8>) -> Result<usize, Error> {
        (
            ByRef3(self.0, self.1, self.2),
            ByRef3(self.3, self.4, self.5),
        )
            .tls_serialize_into(out)
    }
}

/// Seven values in a row, as the tuple `((A, B, C), (D, E), (F, G))`.
#[derive(Drop)]
pub struct ByRef7<'a, A, B, C, D, E, F, G>(
    pub &'a A,
    pub &'a B,
    pub &'a C,
    pub &'a D,
    pub &'a E,
    pub &'a F,
    pub &'a G,
);

impl<'a, A: Size, B: Size, C: Size, D: Size, E: Size, F: Size, G: Size> Size
    for ByRef7<'a, A, B, C, D, E, F, G> {
    ghost plain = { λ v. triple_tree
        (triple_tree (A.plain v.0.now) (B.plain v.1.now) (C.plain v.2.now))
        (pair_tree (D.plain v.3.now) (E.plain v.4.now))
        (pair_tree (F.plain v.5.now) (G.plain v.6.now)) };

    ghost format = { triple_format (triple_format A.format B.format C.format)
        (pair_format D.format E.format) (pair_format F.format G.format) };

    fn tls_serialized_len(&self) -> usize {
        (
            ByRef3(self.0, self.1, self.2),
            ByRef2(self.3, self.4),
            ByRef2(self.5, self.6),
        )
            .tls_serialized_len()
    }

    ghost lawful = { triple_meets (triple_meets A.lawful B.lawful C.lawful)
        (pair_meets D.lawful E.lawful) (pair_meets F.lawful G.lawful) };
}

impl<
    'a,
    A: Serialize,
    B: Serialize,
    C: Serialize,
    D: Serialize,
    E: Serialize,
    F: Serialize,
    G: Serialize,
> Serialize for ByRef7<'a, A, B, C, D, E, F, G> {
    fn tls_serialize<W: Sink>(&self, writer: &mut W) -> Result<usize, Error> {
        (
            ByRef3(self.0, self.1, self.2),
            ByRef2(self.3, self.4),
            ByRef2(self.5, self.6),
        )
            .tls_serialize(writer)
    }

    #[inline(always)]
    fn tls_serialize_into(&self, out: &mut Vec<u8>) -> Result<usize, Error> {
        (
            ByRef3(self.0, self.1, self.2),
            ByRef2(self.3, self.4),
            ByRef2(self.5, self.6),
        )
            .tls_serialize_into(out)
    }
}

/// Eight values in a row, as the tuple `((A, B, C), (D, E, F), (G, H))`.
#[derive(Drop)]
pub struct ByRef8<'a, A, B, C, D, E, F, G, H>(
    pub &'a A,
    pub &'a B,
    pub &'a C,
    pub &'a D,
    pub &'a E,
    pub &'a F,
    pub &'a G,
    pub &'a H,
);

impl<'a, A: Size, B: Size, C: Size, D: Size, E: Size, F: Size, G: Size, H: Size> Size
    for ByRef8<'a, A, B, C, D, E, F, G, H> {
    ghost plain = { λ v. triple_tree
        (triple_tree (A.plain v.0.now) (B.plain v.1.now) (C.plain v.2.now))
        (triple_tree (D.plain v.3.now) (E.plain v.4.now) (F.plain v.5.now))
        (pair_tree (G.plain v.6.now) (H.plain v.7.now)) };

    ghost format = { triple_format (triple_format A.format B.format C.format)
        (triple_format D.format E.format F.format) (pair_format G.format H.format) };

    fn tls_serialized_len(&self) -> usize {
        (
            ByRef3(self.0, self.1, self.2),
            ByRef3(self.3, self.4, self.5),
            ByRef2(self.6, self.7),
        )
            .tls_serialized_len()
    }

    ghost lawful = { triple_meets (triple_meets A.lawful B.lawful C.lawful)
        (triple_meets D.lawful E.lawful F.lawful) (pair_meets G.lawful H.lawful) };
}

impl<
    'a,
    A: Serialize,
    B: Serialize,
    C: Serialize,
    D: Serialize,
    E: Serialize,
    F: Serialize,
    G: Serialize,
    H: Serialize,
> Serialize for ByRef8<'a, A, B, C, D, E, F, G, H> {
    fn tls_serialize<W: Sink>(&self, writer: &mut W) -> Result<usize, Error> {
        (
            ByRef3(self.0, self.1, self.2),
            ByRef3(self.3, self.4, self.5),
            ByRef2(self.6, self.7),
        )
            .tls_serialize(writer)
    }

    #[inline(always)]
    fn tls_serialize_into(&self, out: &mut Vec<u8>) -> Result<usize, Error> {
        (
            ByRef3(self.0, self.1, self.2),
            ByRef3(self.3, self.4, self.5),
            ByRef2(self.6, self.7),
        )
            .tls_serialize_into(out)
    }
}

/// Nine values in a row, as the tuple `((A, B, C), (D, E, F), (G, H, I))`.
#[derive(Drop)]
pub struct ByRef9<'a, A, B, C, D, E, F, G, H, I>(
    pub &'a A,
    pub &'a B,
    pub &'a C,
    pub &'a D,
    pub &'a E,
    pub &'a F,
    pub &'a G,
    pub &'a H,
    pub &'a I,
);

impl<'a, A: Size, B: Size, C: Size, D: Size, E: Size, F: Size, G: Size, H: Size, I: Size> Size
    for ByRef9<'a, A, B, C, D, E, F, G, H, I> {
    ghost plain = { λ v. triple_tree
        (triple_tree (A.plain v.0.now) (B.plain v.1.now) (C.plain v.2.now))
        (triple_tree (D.plain v.3.now) (E.plain v.4.now) (F.plain v.5.now))
        (triple_tree (G.plain v.6.now) (H.plain v.7.now) (I.plain v.8.now)) };

    ghost format = { triple_format (triple_format A.format B.format C.format)
        (triple_format D.format E.format F.format) (triple_format G.format H.format I.format) };

    fn tls_serialized_len(&self) -> usize {
        (
            ByRef3(self.0, self.1, self.2),
            ByRef3(self.3, self.4, self.5),
            ByRef3(self.6, self.7, self.8),
        )
            .tls_serialized_len()
    }

    ghost lawful = { triple_meets (triple_meets A.lawful B.lawful C.lawful)
        (triple_meets D.lawful E.lawful F.lawful) (triple_meets G.lawful H.lawful I.lawful) };
}

impl<
    'a,
    A: Serialize,
    B: Serialize,
    C: Serialize,
    D: Serialize,
    E: Serialize,
    F: Serialize,
    G: Serialize,
    H: Serialize,
    I: Serialize,
> Serialize for ByRef9<'a, A, B, C, D, E, F, G, H, I> {
    fn tls_serialize<W: Sink>(&self, writer: &mut W) -> Result<usize, Error> {
        (
            ByRef3(self.0, self.1, self.2),
            ByRef3(self.3, self.4, self.5),
            ByRef3(self.6, self.7, self.8),
        )
            .tls_serialize(writer)
    }

    #[inline(always)]
    fn tls_serialize_into(&self, out: &mut Vec<u8>) -> Result<usize, Error> {
        (
            ByRef3(self.0, self.1, self.2),
            ByRef3(self.3, self.4, self.5),
            ByRef3(self.6, self.7, self.8),
        )
            .tls_serialize_into(out)
    }
}
