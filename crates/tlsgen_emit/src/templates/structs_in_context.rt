//! A struct in a context, which decides some of its fields: those are in a tuple with the others, which are always there.

use super::{Templates, structs};

/// The templates.
pub fn templates() -> Templates {
    Templates {
        ghost_uses: GHOST_USES,
        code: CODE,
        decoders: DECODERS,
        validator: VALIDATOR,
        law: structs::LAW,
        specs: SPECS,
        texts: &structs::TEXTS,
    }
}

/// How up to three fields are written.
pub static FEW: [(&str, &str); 2] = [
    ("sends", "$borrowed$.tls_serialize_for($by$, writer)"),
    ("adds", "$borrowed$.tls_serialize_into_for($by$, out)"),
];

/// How more are written: a tuple of tuples has several lifetimes, and the borrow checker covers no call with these whose
/// signature names an error.
pub static MANY: [(&str, &str); 2] = [
    ("sends", "write_as_for(self, &$borrowed$, $by$, writer)"),
    ("adds", "append_as_for(self, &$borrowed$, $by$, out)"),
];

/// The parts of one.
pub static PARTED: [(&str, &str); 1] = [("parted", PARTS)];

/// One that has none.
pub static NOT_PARTED: [(&str, &str); 1] = [("parted", "")];

const PARTS: &str = "
impl PartedFor<$key$> for $name$ {
    type Parts = $read$;

    ghost as_parts = { λ c bytes is. is };
}
";

const GHOST_USES: &str =
    "ghost use Rattle.$crate$.specs.$name$.{$module$_format_for, $module$_meets_for, $module$_plain};
ghost use Rattle.$crate$.specs.declared.$module$.$name$.{$name$};
";

const CODE: &str = "$doc$#[derive($derives$)]
pub struct $name$ {
$declared$}

$read_parts$impl SizeFor<$key$> for $name$ {
    ghost plain = { $module$_plain };

    ghost format_for = { $module$_format_for };

    fn tls_serialized_len_for(&self, $by$: &$key$) -> usize {
        $borrowed$.tls_serialized_len_for($by$)
    }

    ghost lawful = { $module$_meets_for };
}

/// `EncodingError(\"value does not fit its context\")`: a field's case is for another tag.
impl SerializeFor<$key$> for $name$ {
    fn tls_serialize_for<W: Sink>(&self, $by$: &$key$, writer: &mut W) -> Result<usize, Error> {
        $sends$
    }

    fn tls_serialize_into_for(&self, $by$: &$key$, out: &mut Vec<u8>) -> Result<usize, Error> {
        $adds$
    }
}
";

const DECODERS: &str = "
impl DeserializeFor<$key$> for $name$ {
    ghost names = { ⟦<$read$ as DeserializeFor<$key$>>⟧.names };

    fn tls_deserialize_for<R: Source>($by$: &$key$, alloc: Global, src: &mut R) -> Result<$name$, Error> {
        let parts = $read_path$::tls_deserialize_for($by$, alloc, src)?;
$lets$        Ok($name$ { $fields$ })
    }
}

impl DeserializeBytesFor<$key$> for $name$ {
    ghost names = { ⟦<$read$ as DeserializeBytesFor<$key$>>⟧.names };

    fn tls_deserialize_bytes_for<'a>($by$: &$key$, alloc: Global, whole: &'a [u8]) -> Result<($name$, &'a [u8]), Error> {
        let (parts, rest) = $read_path$::tls_deserialize_bytes_for($by$, alloc, whole)?;
$lets$        Ok(($name$ { $fields$ }, rest))
    }
}
";

const VALIDATOR: &str = "
impl ValidateFor<$key$> for $name$ {
    ghost places = { ⟦<$read$ as ValidateFor<$key$>>⟧.places };

    fn tls_validate_prefix_for<'a>(key: &u64, whole: &'a [u8]) -> Result<&'a [u8], Rejected<'a>> {
        <$read$ as ValidateFor<$key$>>::tls_validate_prefix_for(key, whole)
    }
}
$parted$";

const SPECS: &str = "abbrev pub $module$_plain : $name$ → Tree
$module$_plain v =$gap$$plain$

abbrev pub $module$_format_for : Tree → Format
$module$_format_for c =$gap$$format$

pub $module$_meets_for : EachMeetsLaws $module$_format_for
$module$_meets_for c =$gap$$law$
";
