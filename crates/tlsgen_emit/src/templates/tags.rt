//! The method that returns the tag of a message's cases.

use crate::lines::Lines;

pub static METHOD: &str = "
impl $name$$any$ {
    /// The tag of this value's case.
    pub fn $tag$(&self) -> $tag_type$
        ensures { $tag_number$ ≡ $module$_tag self.now }
    {
$tag_values$    }
}
";

/// A tag whose enum is closed.
pub static CLOSED: [(&str, &str); 3] = [
    ("tag_type", "$tag_key$"),
    ("tag_number", "$tag_module$_code result"),
    (
        "tag_use",
        "ghost use Rattle.$crate$.specs.$tag_key$.{$tag_module$_code};\n",
    ),
];

/// One whose enum is open.
pub static OPEN: [(&str, &str); 3] = [
    ("tag_type", "$tag_key$"),
    ("tag_number", "result.0"),
    ("tag_use", ""),
];

/// One that is a number.
pub static NUMBER: [(&str, &str); 3] = [
    ("tag_type", "u$bits$"),
    ("tag_number", "result"),
    ("tag_use", ""),
];

/// What a message has whose tag is elsewhere.
pub static NONE: [(&str, &str); 2] = [("tag_use", ""), ("tag_method", "")];

/// A line for each case.
pub static VALUES: Lines = Lines {
    hole: "tag_values",
    before: "        match self {\n",
    each: "            $name$::$variant$ { .. } => $tag_value$,\n",
    bare: Some("            $name$::$variant$ => $tag_value$,\n"),
    one: Some("            $name$::$variant$(_) => $tag_value$,\n"),
    after: "        }\n",
    alone: Some("        $tag_value$\n"),
};
