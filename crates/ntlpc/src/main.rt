//! Replays scripts of system calls on a model of Windows NT's local procedure call.
#![tactic(auto)]

ghost use Rattle.std.specs.Prelude.{◌≡◌, ◌⊎◌};

mod edge;

use edge::run;
use std::alloc::AllocError;
use std::fs::{self, Files};
use std::process::ExitCode;
use std::{env, io};

/// Memory ran out before the words were known.
const OUT_OF_MEMORY: u8 = 5;

/// The most bytes of text that are kept back.
const MOST_KEPT: usize = 65_536;

/// The words behind the program's name.
fn words_of(rt: &HostRuntime) -> io::Result<Vec<String>> {
    let mut words = Vec::new(rt.alloc());
    for word in env::args(rt)?.skip(1) {
        words.push(word).map_err(AllocError::from)?;
    }
    Ok(words)
}

/// How much text may be kept back: a file is read to its end without waiting for anybody. Of another input, or where the
/// system doesn't tell what it is, nothing is.
fn room_for(files: &impl Files) -> usize
    ensures { (result ≡ MOST_KEPT) ⊎ (result ≡ 0) }
{
    match fs::metadata(files, "/dev/stdin") {
        Ok(input) if input.is_file() => MOST_KEPT,
        _ => 0,
    }
}

fn main(rt: HostRuntime) -> ExitCode {
    let words = match words_of(&rt) {
        Ok(words) => words,
        // A word that isn't UTF-8 is a word of no form, as none is.
        Err(error) if error.kind() == io::ErrorKind::InvalidData => Vec::new(rt.alloc()),
        Err(_) => return ExitCode::from(OUT_OF_MEMORY),
    };
    let (input, output) = (rt.stdin(), rt.stdout());
    ExitCode::from(run(rt.alloc(), &words, input, output, room_for(&rt)))
}
