//! The values of options, as the matches of a command line hold them.
ghost use Rattle.std.specs.Prelude.{◌≡◌};
ghost use Rattle.clap.specs.Words.{found_of};
ghost use Rattle.grep_options.specs.Options.{integer_given, is_set, limit_given, natural, number_given};

use clap::ArgMatches;

/// Whether the option, which takes no value, was given.
pub fn is_set(matches: &ArgMatches<'_>, name: &str) -> bool
    ensures { result ≡ is_set (found_of matches.now) name.now }
{
    match matches.get_one::<bool>(name) {
        Some(given) => given,
        None => false,
    }
}

/// The number that was given for the option.
pub fn number(matches: &ArgMatches<'_>, name: &str) -> Option<u64>
    ensures { result ≡ number_given (found_of matches.now) name.now }
{
    matches.get_one::<u64>(name)
}

/// A number that isn't negative.
fn natural(number: i64) -> Option<u64>
    ensures { result ≡ natural number }
{
    u64::try_from(number).ok()
}

/// The number that was given for the option, which may be negative.
fn integer(matches: &ArgMatches<'_>, name: &str) -> Option<i64>
    ensures { result ≡ integer_given (found_of matches.now) name.now }
{
    matches.get_one::<i64>(name)
}

/// The limit that was given for the option. A negative number is no limit.
pub fn limit(matches: &ArgMatches<'_>, name: &str) -> Option<u64>
    ensures { result ≡ limit_given (found_of matches.now) name.now }
{
    let number = integer(matches, name)?;
    natural(number)
}
