//! The words of std and of the codec that texts may take.

/// What definitions take of std.
pub static PRELUDE: [&str; 12] = [
    "◌≡◌",
    "◌==◌",
    "◌||◌",
    "◌∷◌",
    "ℕ",
    "string_bytes",
    "Bool",
    "true",
    "refl",
    "List",
    "[]",
    "codes",
];

/// What the clauses of code take of std.
pub static CLAUSES: [&str; 12] = [
    "[]",
    "◌≡◌",
    "◌&&◌",
    "◌++◌",
    "IsTrue",
    "MatchOption",
    "MatchResult",
    "Some",
    "false",
    "nat_eq",
    "option_map",
    "true",
];

/// What definitions take of the codec.
pub static WORDS: [&str; 60] = [
    "Tree",
    "Number",
    "Empty",
    "Join",
    "trees",
    "number_trees",
    "option_plain",
    "Format",
    "number_format",
    "array_format",
    "option_format",
    "nothing_format",
    "fields_format",
    "list_format",
    "fixed_list_format",
    "bounded_list_format",
    "bytes_format",
    "fixed_bytes_format",
    "bounded_bytes_format",
    "text_format",
    "Variants",
    "no_variant",
    "variant",
    "tagged_format",
    "pair_tree",
    "triple_tree",
    "pair_format",
    "triple_format",
    "values_format",
    "chosen_format",
    "then_format",
    "present_format",
    "MeetsLaws",
    "EachMeetsLaws",
    "MeetsVariantLaws",
    "u8_meets",
    "u16_meets",
    "u24_meets",
    "u32_meets",
    "u64_meets",
    "array_meets",
    "option_meets",
    "nothing_meets",
    "fields_meets",
    "list_meets",
    "fixed_list_meets",
    "bounded_list_meets",
    "bytes_meets",
    "fixed_bytes_meets",
    "bounded_bytes_meets",
    "text_meets",
    "no_variant_meets",
    "variant_meets",
    "tagged_meets",
    "pair_meets",
    "triple_meets",
    "values_meet",
    "chosen_meets",
    "then_meets",
    "present_meets",
];

/// What definitions take of its types.
pub static CONTENTS: [&str; 4] = ["bytes_of", "fixed_bytes_of", "elements_of", "uint24_of"];

/// The laws that answers cite.
pub static LAWS: [&str; 5] = [
    "u8_meets",
    "u16_meets",
    "u32_meets",
    "u64_meets",
    "values_meet",
];

/// The lemmas that answers cite.
pub static LEMMAS: [&str; 24] = [
    "alone_appends",
    "alone_writes",
    "part_begins",
    "part_given",
    "part_leaves",
    "part_named",
    "part_refuses",
    "tag_named_source",
    "tag_reads",
    "tagged_appends",
    "tagged_begins",
    "tagged_given",
    "tagged_leaves_unknown",
    "tagged_named",
    "tagged_named_source",
    "tagged_reads",
    "tagged_refuses_unknown",
    "tagged_splits",
    "tagged_writes",
    "unknown_named_source",
    "value_appends",
    "value_begins",
    "value_given",
    "value_writes",
];

/// What code takes of the codec.
pub static NAMES: [&str; 40] = [
    "Always",
    "ByRef",
    "ByRef2",
    "ByRef3",
    "ByRef4",
    "ByRef5",
    "ByRef6",
    "ByRef7",
    "ByRef8",
    "ByRef9",
    "ByRefIn",
    "ByRefThen",
    "ByRefWhen",
    "Deserialize",
    "DeserializeBytes",
    "DeserializeBytesFor",
    "DeserializeFor",
    "Error",
    "Serialize",
    "SerializeFor",
    "Sink",
    "Size",
    "SizeFor",
    "Source",
    "Then",
    "TlsByteVec",
    "TlsByteVecU8",
    "TlsByteVecU16",
    "TlsByteVecU24",
    "TlsByteVecU32",
    "TlsVec",
    "TlsVecU8",
    "TlsVecU16",
    "TlsVecU24",
    "TlsVecU32",
    "U24",
    "VLBytes",
    "When",
    "Within",
    "unknown_value",
];

/// What definitions take of the cases.
pub static SUMS: [&str; 2] = ["either_variants", "either_variants_meet"];

pub static ENCLOSED: [&str; 2] = ["fixed_enclosed_format", "fixed_enclosed_meets"];

pub static EXACTLY: [&str; 2] = ["exactly_list_format", "exactly_list_meets"];

pub static CHOSEN: [&str; 1] = ["number_of"];

pub static HELD: [&str; 4] = ["first_of", "second_of", "third_of", "rest_of"];

/// What code takes of them for a type of a field, whichever message has it.
pub static CASES_OF_FIELDS: [&str; 1] = ["Exactly"];

/// The words of the cases that code uses, each list for one form: a struct, a sum after a tag, a
/// sum in a context, a struct in a context, a struct with fields that depend on an earlier tag, and
/// a message that is a tag or holds one.
pub static CASES_OF_ROW: [&str; 1] = ["append_as"];

pub static CASES_OF_SUM: [&str; 6] = ["Case", "Enclosed", "Or", "Tagged", "append_as", "write_as"];

pub static CASES_OF_SELECT: [&str; 5] = ["Case", "Chosen", "Or", "append_as_for", "write_as_for"];

pub static CASES_OF_STRUCT: [&str; 4] = ["AnyOf", "Is", "append_as_for", "write_as_for"];

pub static CASES_OF_THEN: [&str; 5] = ["AnyOf", "By", "Is", "append_as", "write_as"];

pub static HOLDS: [&str; 2] = ["Holds", "Selector"];

/// What code takes of validation.
pub static VALIDATION: [&str; 15] = [
    "FindTag",
    "HoldsKey",
    "Keyed",
    "Keyless",
    "Rejected",
    "TagFirst",
    "TagKeyed",
    "Validate",
    "ValidateFor",
    "ValidateKeyed",
    "split_u8",
    "split_u16",
    "split_u32",
    "split_u64",
    "validate_tag_first",
];

/// What code takes of views.
pub static VIEWING: [&str; 7] = [
    "Choice",
    "ChoiceFor",
    "Encoded",
    "Numbered",
    "Parted",
    "PartedFor",
    "ReadInPlace",
];

/// The lemmas of validation that answers cite.
pub static PLACING: [&str; 9] = [
    "nothing_begins",
    "part_rejects",
    "parts_leave",
    "parts_placed",
    "parts_rejected",
    "tag_placed",
    "tag_rejected",
    "unknown_placed",
    "unknown_rejected",
];

pub static VALIDATING: [&str; 1] = ["leaves"];
