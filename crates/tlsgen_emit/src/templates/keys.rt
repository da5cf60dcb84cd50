//! The key of what holds tags: the number of each, in a value and in bytes.

/// The key of a message.
pub static KEYED: &str = "
impl Keyed for $name$ {
    type Key = $key_type$;

    ghost is_key = { λ key c. $clauses$ };

    fn key(&self) -> $key_type$ {
        $made$
    }
}
";

/// The key of a tag in it.
pub static HOLDS_KEY: &str = "
impl HoldsKey<$key$> for $name$ {
    fn held_key(key: &$key_type$) -> u64 {
        $key_path$
    }
}
";

/// That a number of the key is that of a tag.
pub static CLAUSE: &str = "($key_of$ ≡ ⟦<$key$ as Selector>⟧.selected ($held$ c))";

/// The number of a tag in a value.
pub static MADE: &str = "<$name$ as Holds<$key$>>::held(self).selects()";

/// How the key of a struct is found in bytes.
pub static IN_STRUCT: &str = "
type KeyedParts = $keyed_parts$;

impl ValidateKeyed for $name$ {
    fn tls_validate_keyed(whole: &[u8]) -> Result<($key_type$, &[u8]), Rejected<'_>> {
        let ($keyed_pattern$, rest) = <KeyedParts>::tls_validate_keyed(whole)?;
        Ok(($found$, rest))
    }
}
";

/// How that of an enum is.
pub static IN_ENUM: &str = "
impl TagFirst for $name$ {
    type Tag = u$bits$;

    ghost variants = { $module$_variants };

    ghost first_tag = { λ c. ⟦<$key$ as Selector>⟧.selected ($held$ c) };

    ghost is_tagged = { λ d bytes v spelled. spelled };

    ghost is_first_tag = { λ d bytes tag parts spelled. refl };
}

impl ValidateKeyed for $name$ {
    fn tls_validate_keyed(whole: &[u8]) -> Result<(u64, &[u8]), Rejected<'_>> {
        validate_tag_first::<$name$>(whole)
    }
}
";

/// What the module of an enum takes of the definitions.
pub static ENUM_USE: &str = "ghost use Rattle.std.proofs.Common.{refl};
ghost use Rattle.$crate$.specs.$name$.{$module$_variants};
";

/// A field with a tag, and one without.
pub static WITH_KEY: [(&str, &str); 2] = [("keyed_part", "$part$"), ("keyed_name", "$name$")];

pub static WITHOUT_KEY: [(&str, &str); 2] = [
    ("keyed_part", "Keyless<$part$>"),
    ("keyed_name", "_"),
];
