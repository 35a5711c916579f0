//! Names in lists of names.
ghost use Rattle.std.specs.Prelude.{◌≡◌, map, option_map};
ghost use Rattle.command_words.specs.Arguments.{free_name, setting_of};
ghost use Rattle.command_words.specs.Shapes.{is_among};

use crate::arguments::{Argument, value_of};

/// Whether the name is one of these.
pub(crate) fn is_among(names: &[&str], name: &str) -> bool
    ensures { result ≡ is_among name.now (map (λ n. n.now) names.now) }
{
    let mut others = names;
    while let [one, after @ ..] = others {
        if *one == name {
            return true;
        }
        others = after;
    }
    false
}

/// The first of the names that is not set.
pub(crate) fn free_name<'a>(names: &'a [&'a str], arguments: &[Argument<'_>]) -> Option<&'a str>
    ensures { option_map (λ n. n.now) result
        ≡ free_name (map setting_of arguments.now) (map (λ n. n.now) names.entry.now) }
{
    let mut others = names;
    while let [name, after @ ..] = others {
        if value_of(arguments, name).is_none() {
            return Some(*name);
        }
        others = after;
    }
    None
}
