//! Names of classes of characters, as `[:alpha:]` in a set.
ghost use Rattle.std.specs.Prelude.{◌≡◌};
ghost use Rattle.globs.specs.ClassNames.{is_name, letter_ranges, named_ranges, other_ranges};

fn is_name(name: &[char], known: &[char]) -> bool
    ensures { result ≡ is_name name.now known.now }
{
    name == known
}

/// The ranges of a class of letters or digits.
fn letter_ranges(name: &[char]) -> &'static [(char, char)]
    ensures { result.now ≡ letter_ranges name.now }
{
    if is_name(name, &['a', 'l', 'n', 'u', 'm']) {
        return &[('0', '9'), ('A', 'Z'), ('a', 'z')];
    }
    if is_name(name, &['a', 'l', 'p', 'h', 'a']) {
        return &[('A', 'Z'), ('a', 'z')];
    }
    if is_name(name, &['d', 'i', 'g', 'i', 't']) {
        return &[('0', '9')];
    }
    if is_name(name, &['l', 'o', 'w', 'e', 'r']) {
        return &[('a', 'z')];
    }
    if is_name(name, &['u', 'p', 'p', 'e', 'r']) {
        return &[('A', 'Z')];
    }
    if is_name(name, &['x', 'd', 'i', 'g', 'i', 't']) {
        return &[('0', '9'), ('A', 'F'), ('a', 'f')];
    }
    &[]
}

fn other_ranges(name: &[char]) -> &'static [(char, char)]
    ensures { result.now ≡ other_ranges name.now }
{
    if is_name(name, &['b', 'l', 'a', 'n', 'k']) {
        return &[('\t', '\t'), (' ', ' ')];
    }
    if is_name(name, &['c', 'n', 't', 'r', 'l']) {
        return &[('\0', '\x1f'), ('\x7f', '\x7f')];
    }
    if is_name(name, &['g', 'r', 'a', 'p', 'h']) {
        return &[('!', '~')];
    }
    if is_name(name, &['p', 'r', 'i', 'n', 't']) {
        return &[(' ', '~')];
    }
    if is_name(name, &['p', 'u', 'n', 'c', 't']) {
        return &[('!', '/'), (':', '@'), ('[', '`'), ('{', '~')];
    }
    if is_name(name, &['s', 'p', 'a', 'c', 'e']) {
        return &[('\t', '\r'), (' ', ' ')];
    }
    letter_ranges(name)
}

/// The ranges of a class, by its name. A name that isn't known has none.
#[tactic(auto, unfolding(crate::specs::ClassNames::named_ranges))]
pub fn named_ranges(name: &[char]) -> &'static [(char, char)]
    ensures { result.now ≡ named_ranges name.now }
{
    other_ranges(name)
}
