//! What the lines of reports and of layouts have in common.
ghost use Rattle.std.specs.Prelude.{◌≡◌};
ghost use Rattle.dsr_cells.specs.meaning.Lines.{without_return};
ghost use Rattle.dsr_records.specs.meaning.Layouts.{is_left_out};

/// The maximum length of a line in bytes, without its line feed.
pub const LINE_LIMIT: usize = 8192;

/// Whether a line is ignored: an empty one, or one that begins with `#`.
pub fn is_left_out(line: &str) -> bool
    ensures { result ≡ is_left_out line.now }
{
    line.is_empty() || line.as_bytes()[0] == b'#'
}

/// The text of a line without a carriage return at its end.
pub fn strip_return(line: &str) -> &str
    ensures { result.now ≡ without_return line.now }
{
    let last = line.len().saturating_sub(1);
    if last < line.len() && line.as_bytes()[last] == b'\r' {
        &line[..last]
    } else {
        line
    }
}
