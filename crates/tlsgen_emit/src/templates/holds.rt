//! What holds a tag that decides selects of other messages.

/// The impl of a message.
pub static CODE: &str = "
impl Holds<$key$> for $name$$any$ {
    ghost held = { $held$ };

    fn held(&self) -> $key$ {
$holding$    }
}
";

/// What the module takes of the definitions.
pub static USE: &str = "ghost use Rattle.$crate$.specs.$name$.{$held$};
";

const FIELD: &str = "
-- the $key$ of a value, from what the value stands for
abbrev pub $held$ : Tree → Tree
$held$ c = $path$
";

/// The texts for a field that is the tag.
pub static IS_TAG: [(&str, &str); 2] = [
    ("holding", "        $deref$self.$member$\n"),
    ("definition", FIELD),
];

/// The texts for a field that holds the tag.
pub static HOLDS_TAG: [(&str, &str); 2] = [
    ("holding", "        self.$member$.held()\n"),
    ("definition", FIELD),
];

/// The texts for a tag in front of the message's cases, if its enum is closed.
pub static IS_CLOSED: [(&str, &str); 2] = [
    ("holding", "        self.$tag$()\n"),
    (
        "definition",
        "
-- the $key$ of a value, from what the value stands for
abbrev pub $held$ : Tree → Tree
$held$ (Join number _) = Join number Empty
$held$ _ = Empty
",
    ),
];

/// The same for an open enum.
pub static IS_OPEN: [(&str, &str); 2] = [
    ("holding", "        self.$tag$()\n"),
    (
        "definition",
        "
-- the $key$ of a value, from what the value stands for
abbrev pub $held$ : Tree → Tree
$held$ (Join number _) = number
$held$ _ = Empty
",
    ),
];
