//! A type: as Rust, what a value stands for, its format and its law.

/// The templates of a type: of numbers, of texts, of lists and so on.
pub struct TypeTemplates {
    pub rust: &'static str,
    pub plain: &'static str,
    pub tree: &'static str,
    pub format: &'static str,
    pub law: &'static str,
}

pub static NUMBER: TypeTemplates = TypeTemplates {
    rust: "u$bits$",
    plain: "Number",
    tree: "Number $v$",
    format: "number_format $width$",
    law: "u$bits$_meets",
};

pub static NUMBER_OF_THREE_BYTES: TypeTemplates = TypeTemplates {
    rust: "U24",
    plain: "(λ v. Number (uint24_of v))",
    tree: "Number (uint24_of $v$)",
    format: "number_format 3",
    law: "u24_meets",
};

pub static TEXT: TypeTemplates = TypeTemplates {
    rust: "String",
    plain: "(λ v. number_trees (string_bytes v))",
    tree: "number_trees (string_bytes $v$)",
    format: "text_format",
    law: "text_meets",
};

pub static BYTES: TypeTemplates = TypeTemplates {
    rust: "VLBytes",
    plain: "(λ v. number_trees (bytes_of v))",
    tree: "number_trees (bytes_of $v$)",
    format: "bytes_format",
    law: "bytes_meets",
};

pub static FIXED_BYTES: TypeTemplates = TypeTemplates {
    rust: "TlsByteVecU$bits$",
    plain: "(λ v. number_trees (fixed_bytes_of v))",
    tree: "number_trees (fixed_bytes_of $v$)",
    format: "fixed_bytes_format $width$",
    law: "fixed_bytes_meets $width$",
};

pub static BOUNDED_BYTES: TypeTemplates = TypeTemplates {
    rust: "TlsByteVec<Within<$field$, $least$, $most$>>",
    plain: "(λ v. number_trees (fixed_bytes_of v))",
    tree: "number_trees (fixed_bytes_of $v$)",
    format: "bounded_bytes_format $width$ $least$ $most$",
    law: "bounded_bytes_meets $width$ $least$ $most$ (omega arith)",
};

pub static ARRAY: TypeTemplates = TypeTemplates {
    rust: "[u8; $len$]",
    plain: "number_trees",
    tree: "number_trees $v$",
    format: "array_format $len$",
    law: "array_meets $len$ (omega arith)",
};

pub static MESSAGE: TypeTemplates = TypeTemplates {
    rust: "$name$$lifetime$",
    plain: "$module$_plain",
    tree: "$module$_plain $v$",
    format: "$module$_format",
    law: "$module$_meets",
};

/// One that a context decides: the hole `c` is for what that stands for.
pub static MESSAGE_IN_CONTEXT: TypeTemplates = TypeTemplates {
    rust: "$name$",
    plain: "$module$_plain",
    tree: "$module$_plain $v$",
    format: "$module$_format_for $c$",
    law: "$module$_meets_for $c$",
};

// Those of other types have holes for the texts of these.

pub static OPTION: TypeTemplates = TypeTemplates {
    rust: "Option<$rust$>",
    plain: "(option_plain $plain$)",
    tree: "option_plain $plain$ $v$",
    format: "option_format $format$",
    law: "option_meets $law$",
};

/// A field that is present for some numbers of a tag only: no byte says whether it is.
pub static PRESENT: TypeTemplates = TypeTemplates {
    rust: "Option<$rust$>",
    plain: "(option_plain $plain$)",
    tree: "option_plain $plain$ $v$",
    format: "present_format ($test$) $format$",
    law: "present_meets ($test$) $law$",
};

pub static LIST: TypeTemplates = TypeTemplates {
    rust: "Vec<$rust$>",
    plain: "(λ v. trees $plain$ v.items)",
    tree: "trees $plain$ $v$.items",
    format: "list_format $format$",
    law: "list_meets $law$",
};

pub static FIXED_LIST: TypeTemplates = TypeTemplates {
    rust: "TlsVecU$bits$<$rust$>",
    plain: "(λ v. trees $plain$ (elements_of v))",
    tree: "trees $plain$ (elements_of $v$)",
    format: "fixed_list_format $width$ $format$",
    law: "fixed_list_meets $width$ $law$",
};

pub static BOUNDED_LIST: TypeTemplates = TypeTemplates {
    rust: "TlsVec<Within<$field$, $least$, $most$>, $rust$>",
    plain: "(λ v. trees $plain$ (elements_of v))",
    tree: "trees $plain$ (elements_of $v$)",
    format: "bounded_list_format $width$ $least$ $most$ $format$",
    law: "bounded_list_meets $width$ $least$ $most$ (omega arith) $law$",
};

/// A list of `count` bytes in total: an array whose elements aren't bytes.
pub static EXACT_LIST: TypeTemplates = TypeTemplates {
    rust: "TlsVec<Exactly<$count$>, $rust$>",
    plain: "(λ v. trees $plain$ (elements_of v))",
    tree: "trees $plain$ (elements_of $v$)",
    format: "exactly_list_format $count$ $format$",
    law: "exactly_list_meets $count$ (omega arith) $law$",
};
