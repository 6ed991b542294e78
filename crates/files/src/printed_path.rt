//! Paths as errors print them.

ghost use Rattle.std.specs.Prelude.{Some, chars};
ghost use Rattle.std.specs.Fmt.{WritesOnOk};
ghost use Rattle.std.specs.List.{flat_map};
ghost use Rattle.files.specs.Paths.{path_char};

use std::fmt;

/// A path as an error prints it. Control characters of ASCII are written as `\x` and two hexadecimal digits, so that
/// the error stays on its line and sends no command to a terminal.
#[derive(Clone, Copy, Debug)]
pub struct PrintedPath<'a>(pub &'a str);

impl<'a> fmt::Display for PrintedPath<'a> {
    ghost output = { λ path. Some (flat_map path_char (chars path.0.now)) };

    fn fmt<W: fmt::Write>(&self, f: &mut fmt::Formatter<W>) -> fmt::Result {
        write_path(f, self.0)
    }
}

fn write_path<W: fmt::Write>(f: &mut fmt::Formatter<W>, path: &str) -> fmt::Result
    ensures { WritesOnOk W.write_str_gives f.old result (flat_map path_char (chars path.now)) f.new }
{
    for c in path.chars() {
        write_path_char(f, c)?;
    }
    Ok(())
}

fn write_path_char<W: fmt::Write>(f: &mut fmt::Formatter<W>, c: char) -> fmt::Result
    ensures { WritesOnOk W.write_str_gives f.old result (path_char c) f.new }
{
    if c.is_ascii_control() {
        let high = c as u32 / 16;
        let low = c as u32 % 16;
        write!(f, "\\x{high:x}{low:x}")
    } else {
        f.write_char(c)
    }
}
