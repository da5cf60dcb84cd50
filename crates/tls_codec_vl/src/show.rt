//! How byte vectors are printed by `{:?}`.
ghost use Rattle.std.specs.Prelude.{flat_map};
ghost use Rattle.std.specs.Fmt.{WritesOnOk};
ghost use Rattle.tls_codec_vl.specs.Shown.{byte_text, content_text, debug_text};

use std::fmt;

/// Writes the name of a type, and bytes in braces: `VLBytes { 0x00aa }`, or `VLBytes { b"" }` for
/// none.
pub fn debug<W: fmt::Write>(name: &str, content: &[u8], f: &mut fmt::Formatter<W>) -> fmt::Result
    ensures { WritesOnOk W.write_str_gives f.old result (debug_text name.now content.now) f.new }
{
    f.write_str(name)?;
    f.write_str(" { ")?;
    write_content(content, f)?;
    f.write_str(" }")
}

fn write_content<W: fmt::Write>(content: &[u8], f: &mut fmt::Formatter<W>) -> fmt::Result
    ensures { WritesOnOk W.write_str_gives f.old result (content_text content.now) f.new }
{
    if content.is_empty() {
        return f.write_str("b\"\"");
    }
    f.write_str("0x")?;
    write_digits(content, f)
}

fn write_digits<W: fmt::Write>(content: &[u8], f: &mut fmt::Formatter<W>) -> fmt::Result
    ensures { WritesOnOk W.write_str_gives f.old result (flat_map byte_text content.now) f.new }
{
    for byte in content {
        write!(f, "{byte:02x}")?;
    }
    Ok(())
}
