//! What the options of a line have.
ghost use Rattle.std.specs.Prelude.{◌≡◌, is_some, option_map};
ghost use Rattle.clap.specs.Words.{found_of, rows_of};
ghost use Rattle.lx_words.specs.Line.{has_flag, has_value, value};

use clap::ArgMatches;

/// The value of an option, where it stands in the line.
pub fn value<'a>(line: &ArgMatches<'a>, id: &str) -> Option<&'a str>
    ensures { option_map (λ text. text.now) result ≡ value (rows_of (found_of line.now)) id.now }
{
    line.get_str(id)
}

/// Whether an option stands in the line with a value.
pub fn has_value(line: &ArgMatches<'_>, id: &str) -> bool
    ensures { result ≡ has_value (rows_of (found_of line.now)) id.now }
{
    value(line, id).is_some()
}

/// Whether a flag stands in the line.
pub fn has_flag(line: &ArgMatches<'_>, id: &str) -> bool
    ensures { result ≡ has_flag (rows_of (found_of line.now)) id.now }
{
    line.get_count(id) > 0
}
