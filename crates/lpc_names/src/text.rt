// A path as the machine keeps it: no byte for the root, else a backslash before each component.
ghost use Rattle.std.specs.Prelude.{◌≡◌, ◌≤◌, length, true, Err, MatchOption, ◌++◌, ◌∷◌};
ghost use Rattle.std.specs.List.{list_any};
ghost use Rattle.lpc_names.specs.Path.{is_empty, parts_of, spelled};
ghost use Rattle.lpc_names.specs.Kept.{IsJoined, begins_part, name_length, path_of, seen_path};

use crate::NameFault;
use arrayvec::ArrayVec;

/// The bytes of a path, of which there are 256 at most.
pub type Text = ArrayVec<u8, 256>;

/// How many bytes stand before the first backslash.
pub fn length_of_name(bytes: &[u8]) -> usize
    ensures length { result ≡ name_length bytes.now }
    ensures within { result ≤ length bytes.now }
{
    for (at, byte) in bytes.iter().enumerate() {
        if *byte == b'\\' {
            return at;
        }
    }
    bytes.len()
}

// A part between backslashes is empty.
fn has_empty_part(names: &[u8]) -> bool
    ensures { result ≡ list_any is_empty (parts_of names.now) }
{
    let mut begins = true;
    for byte in names {
        let ends = *byte == b'\\';
        if begins && ends {
            return true;
        }
        begins = ends;
    }
    begins
}

// What stands behind the backslash that a path begins with.
fn behind_root(text: &[u8]) -> Option<&[u8]>
    ensures { MatchOption result (spelled text.now ≡ Err NameFault.PathSyntax)
        (λ names. text.now ≡ 92 ∷ names.now) }
{
    match text {
        [b'\\', names @ ..] => Some(names),
        _ => None,
    }
}

/// The path that a text spells, with no link replaced yet.
///
/// # Errors
///
/// `PathSyntax`: the text does not begin with a backslash. `NameInvalid`: a component is empty, or the text has more
/// than 256 bytes.
pub fn read(text: &[u8]) -> Result<Text, NameFault>
    ensures { seen_path result ≡ spelled text.now }
{
    let Some(names) = behind_root(text) else {
        return Err(NameFault::PathSyntax);
    };
    let mut path = Text::new();
    if names.is_empty() {
        return Ok(path);
    }
    if has_empty_part(names) {
        return Err(NameFault::NameInvalid);
    }
    if path.try_extend_from_slice(text).is_err() {
        return Err(NameFault::NameInvalid);
    }
    Ok(path)
}

/// A link's target with what follows the link, which begins with a backslash where it isn't empty.
///
/// # Errors
///
/// `NameInvalid`: the two have more than 256 bytes together.
pub fn join(target: &Text, rest: &[u8]) -> Result<Text, NameFault>
    requires { begins_part rest.now ≡ true }
    ensures { IsJoined (path_of target.now.items ++ path_of rest.now) result }
{
    let mut path = Text::new();
    path.try_extend_from_slice(target).unwrap();
    if path.try_extend_from_slice(rest).is_err() {
        return Err(NameFault::NameInvalid);
    }
    Ok(path)
}
