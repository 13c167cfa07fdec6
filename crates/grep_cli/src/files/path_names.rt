//! Names in paths, and how deep a path is in a folder.
ghost use Rattle.std.specs.Prelude.{◌≡◌, ◌≤◌, false, None, length, nat_eq};
ghost use Rattle.std.specs.Cmp.Lexicographic.{pointwise};
ghost use Rattle.globs.specs.Rules.{begins};
ghost use Rattle.grep_cli.specs.Selecting.{base_len, depth_in};
ghost use Rattle.grep_cli.specs.Selecting.{slashes};

/// Whether two names are equal.
pub fn is_name(name: &[char], known: &[char]) -> bool
    ensures { result ≡ pointwise nat_eq name.now known.now }
{
    name == known
}

/// Whether a name begins with a dot.
pub fn begins_with_dot(name: &[char]) -> bool
    ensures { result ≡ begins 46 name.now }
{
    match name.first() {
        Some(first) => *first == '.',
        None => false,
    }
}

/// How many bytes a path has without the slashes at its end.
pub fn base_len(path: &str) -> usize
    ensures len { result ≡ base_len path.now }
    ensures within { result ≤ length path.now }
{
    let mut kept = 0;
    for (at, byte) in path.as_bytes().iter().enumerate() {
        kept = if *byte == b'/' { kept } else { at + 1 };
    }
    kept
}

/// How many slashes there are in a part of a path.
fn slashes(part: &[u8]) -> usize
    ensures count { result ≡ slashes part.now }
    ensures within { result ≤ length part.now }
{
    let mut count = 0;
    for byte in part {
        if *byte == b'/' {
            count += 1;
        }
    }
    count
}

/// How deep a path is in the folder at `root`, in which it was found: 1 for an entry of that folder.
pub fn depth_in(root: &str, path: &str) -> usize
    ensures { result ≡ depth_in root.now path.now }
{
    match path.as_bytes().get(base_len(root)..) {
        Some(part) => slashes(part),
        None => 0,
    }
}
