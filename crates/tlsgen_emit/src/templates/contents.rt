//! `From` of a case's content.

use crate::lines::Lines;

/// That of a case, which no other can be made of.
pub static FROM: &str = "
/// The case `$label$` with this content.
impl$lifetime$ From<$types$> for $name$$lifetime$ {
    ghost from_gives = { λ content value. value ≡ $name$.$variant$ content };

    fn from(content: $types$) -> $name$$lifetime$ {
        $name$::$variant$(content)
    }
}
";

/// A case that has none.
pub static NONE: &str = "";

/// Those of an enum.
pub const CONTENTS: Lines = Lines {
    hole: "from_contents",
    before: "",
    each: "$from_content$",
    bare: None,
    one: None,
    after: "",
    alone: None,
};
