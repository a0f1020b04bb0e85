//! Whether register 1 of a piece may be spelled as the context marker.
ghost use Rattle.std.specs.Prelude.{◌≡◌, is_some};
ghost use Rattle.std.specs.List.{list_any};
ghost use Rattle.lx_regex.specs.declared.rules.Rule.{Rule as rule_type};
ghost use Rattle.lx_gen.specs.Generated.{has_context_marker, has_slash};

use lx_base::Options;
use lx_regex::Rule;
use lx_rules::Scanner;

fn any_slash(rules: &[Rule]) -> bool
    ensures { result ≡ list_any (λ (rule : rule_type). is_some rule.slash) rules.now }
{
    for rule in rules {
        if rule.slash.is_some() {
            return true;
        }
    }
    false
}

/// Whether some rule of the scanners has a trailing context.
fn has_slash(scanners: &[Scanner]) -> bool
    ensures { result ≡ has_slash scanners.now }
{
    for scanner in scanners {
        if any_slash(scanner.set.rules.as_slice()) {
            return true;
        }
    }
    false
}

/// Whether register 1, where a statement has it, is spelled as the context marker: some rule has a trailing context, and the user gives no
/// name to a tag or a group (re2c manual, "Trailing contexts").
pub(crate) fn has_context_marker(options: &Options, scanners: &[Scanner]) -> bool
    ensures { result ≡ has_context_marker options.now scanners.now }
{
    if options.tags || options.captures || options.posix {
        return false;
    }
    has_slash(scanners)
}
