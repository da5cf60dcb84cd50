//! An open enum: a struct over its number.

use super::Templates;
use crate::lines::Lines;

/// The templates.
pub fn templates() -> Templates {
    Templates {
        ghost_uses: GHOST_USES,
        code: CODE,
        decoders: "",
        validator: VALIDATOR,
        law: LAW,
        specs: SPECS,
        texts: &TEXTS,
    }
}

const GHOST_USES: &str = "ghost use Rattle.std.specs.Ordering.{nat_cmp};
ghost use Rattle.tls_codec.specs.Registries.{listed_name, name_or_number};
ghost use Rattle.$crate$.specs.$name$.{$module$_format, $module$_meets, $module$_names, $module$_plain$selected_use$};
ghost use Rattle.$crate$.specs.declared.$module$.$name$.{$name$};
";

static TEXTS: [Lines; 4] = [
    Lines {
        hole: "constants",
        before: "",
        each: "$line$    /// `$label$`\n$comment$    pub const $constant$: $name$ = $name$($number$);\n",
        bare: None,
        one: None,
        after: "",
        alone: None,
    },
    Lines {
        hole: "name_of",
        before: "",
        each: "            $number$ => Some(\"$label$\"),\n",
        bare: None,
        one: None,
        after: "",
        alone: None,
    },
    Lines {
        hole: "named",
        before: "",
        each: "    ($number$, codes \"$label$\") ∷\n",
        bare: None,
        one: None,
        after: "    []\n",
        alone: None,
    },
    Lines {
        hole: "variants_use",
        before: "",
        each: "",
        bare: None,
        one: None,
        after: "",
        alone: None,
    },
];

const CODE: &str =
    "$doc$$borrowed_doc$#[derive(PartialEq, Eq, PartialOrd, Ord, Hash, Debug, Clone, Copy)]
pub struct $name$(pub u$bits$);

impl $name$ {
$constants$
    /// Its name in the presentation language, if it has one.
    pub fn name(&self) -> Option<&'static str>
        ensures { option_map (λ t. t.now) result ≡ listed_name $module$_names self.now.0 }
    {
        match self.0 {
$name_of$            _ => None,
        }
    }
}

/// Its name, or else its number in hexadecimal, two digits per byte. A width pads only names.
impl fmt::Display for $name$ {
    ghost output = { λ v. Some (name_or_number $module$_names $digits$ v.0) };

    #[tactic(auto, using(tls_codec::specs::Registries::hexadecimal_digits))]
    fn fmt<W: fmt::Write>(&self, f: &mut fmt::Formatter<W>) -> fmt::Result {
        match self.name() {
            Some(name) => f.pad(name),
            None => write!(f, \"0x{:0$digits$x}\", self.0),
        }
    }
}

/// Its number.
impl From<$name$> for u$bits$ {
    ghost from_gives = { λ v number. number ≡ v.0 };

    fn from(value: $name$) -> u$bits$ {
        value.0
    }
}

/// The value with this number.
impl From<u$bits$> for $name$ {
    ghost from_gives = { λ number v. v.0 ≡ number };

    fn from(number: u$bits$) -> $name$ {
        $name$(number)
    }
}

impl Size for $name$ {
    ghost plain = { $module$_plain };

    ghost format = { $module$_format };

    fn tls_serialized_len(&self) -> usize {
        $width$
    }

    fn tls_fixed_len() -> Option<usize> {
        Some($width$)
    }

    ghost lawful = { $module$_meets };
}

impl Serialize for $name$ {
    fn tls_serialize<W: Sink>(&self, writer: &mut W) -> Result<usize, Error> {
        self.0.tls_serialize(writer)
    }

    fn tls_serialize_into(&self, out: &mut Vec<u8>) -> Result<usize, Error> {
        self.0.tls_serialize_into(out)
    }
}

impl Deserialize for $name$ {
    ghost names = { ⟦<u$bits$ as Deserialize>⟧.names };

    fn tls_deserialize<R: Source>(alloc: Global, src: &mut R) -> Result<$name$, Error> {
        let number = u$bits$::tls_deserialize(alloc, src)?;
        Ok($name$(number))
    }
}

impl DeserializeBytes for $name$ {
    ghost names = { ⟦<u$bits$ as DeserializeBytes>⟧.names };

    fn tls_deserialize_bytes(alloc: Global, whole: &[u8]) -> Result<($name$, &[u8]), Error> {
        let (number, rest) = u$bits$::tls_deserialize_bytes(alloc, whole)?;
        Ok(($name$(number), rest))
    }
}
$selector$";

const VALIDATOR: &str = "
impl Validate for $name$ {
    ghost places = { ⟦<u$bits$ as Validate>⟧.places };

    fn tls_validate_prefix(whole: &[u8]) -> Result<&[u8], Rejected<'_>> {
        u$bits$::tls_validate_prefix(whole)
    }

    fn tls_width() -> Option<usize> {
        u$bits$::tls_width()
    }
}

impl Parted for $name$ {
    type Parts = u$bits$;

    ghost as_parts = { λ bytes is. is };
}

impl ReadInPlace for $name$ {
    fn read(encoded: &Encoded<'_, $name$>) -> $name$ {
        $name$(encoded.parts().get())
    }
}
$keyed$";

const LAW: &str = "
/// Two values are equal if and only if their numbers are equal.
pub fn is_compared_by_its_number()
    ensures { (x y : $name$) →
        ⟦<$name$ as PartialEq>⟧.eq x y ≡ nat_eq x.0 y.0 }
{}

/// Values are ordered by their numbers.
pub fn is_ordered_by_its_number()
    ensures { (x y : $name$) →
        ⟦<$name$ as Ord>⟧.cmp x y ≡ nat_cmp x.0 y.0 }
{}
";

const SPECS: &str = "abbrev pub $module$_plain : $name$ → Tree
$module$_plain v = Number v.0

abbrev pub $module$_format : Format
$module$_format = number_format $width$

pub $module$_meets : MeetsLaws $module$_format
$module$_meets = u$bits$_meets

-- the numbers that have names
abbrev pub $module$_names : List (ℕ × List ℕ)
$module$_names =
$named$
$selection$";
