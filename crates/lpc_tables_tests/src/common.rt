// What tests of several crates make and check.
ghost use Rattle.std.specs.Prelude.{IfOk, IsSome};
ghost use Rattle.lpc_slots.specs.Table.{at};

use lpc_sections::Section;
use lpc_sid::{Sid, Token};
use lpc_slots::{Key, Slots};
use std::alloc::Global;
use std::fmt::Display;
use std::process::Abort;
use std::test::Fail;

/// The text of a value is this.
pub fn says(rt: &impl Abort, alloc: Global, value: &impl Display, text: &str) -> Result<(), Fail> {
    let said = format!(in alloc; "{value}")?;
    assert!(rt; said.as_str() == text);
    Ok(())
}

/// A token that isn't the default one.
pub fn guest() -> Token {
    Token {
        user: Sid::read(b"S-1-5-21-1").unwrap_or_default(),
        ..Token::default()
    }
}

/// A table with this section alone, and its key.
pub fn table_of(
    rt: &impl Abort,
    alloc: Global,
    section: Section,
) -> Result<(Slots<Section>, Key), Fail>
    ensures { IfOk result (λ made. IsSome (at made.0 made.1)) }
{
    let mut sections = Slots::new(alloc);
    sections.reserve(1)?;
    let key = sections.insert_reserved(section);
    assert!(rt; sections.get(key).is_some());
    Ok((sections, key))
}
