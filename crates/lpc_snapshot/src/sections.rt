// Sections.
ghost use Rattle.std.specs.Prelude.{◌≡◌, ◌<◌, ◌≤◌, Some, length, slice_get, true, OnErr, vec_capacity};
ghost use Rattle.lpc_model.specs.Found.{content_of};
ghost use Rattle.lpc_rows.specs.Names.{name_of, stands};
ghost use Rattle.lpc_rows.specs.Shown.{shown_section};
ghost use Rattle.lpc_transcript.specs.Printing.{BeginsWith, LacksRoom, Puts};
ghost use Rattle.lpc_states.specs.Rows.{lines, section_row, without_last_zeros};

use crate::counts::put_counts;
use lpc_base::OutOfMemory;
use lpc_model::ObjectKind;
use lpc_sections::Section;
use lpc_slots::Key;
use lpc_states::{put_decimal_under, put_flag_under, put_hex_bytes, put_object};
use lpc_transcript::put;
use lpc_world::{Object, World};

// Bytes up to the last one that isn't 0.
fn without_last_zeros(bytes: &[u8]) -> &[u8]
    ensures { result.now ≡ without_last_zeros bytes.now }
{
    let mut end = bytes.len();
    while end > 0 && bytes[end - 1] == 0 {
        end -= 1;
    }
    &bytes[..end]
}

fn put_section(
    into: &mut Vec<u8>,
    world: &World,
    key: Key,
    section: &Section,
) -> Result<(), OutOfMemory>
    requires stands { stands world.now.births.sections key ≡ true }
    requires name { name_of world.now.births.sections key ≡ (section.now).birth }
    requires content { content_of world.now.rows.contents (section.now).birth
        ≡ (section.now).bytes }
    ensures ok { Puts into.old.items into.new.items
        (section_row world.now.rows (shown_section (key, section.now))) result }
    ensures err { OnErr result (BeginsWith into.new.items into.old.items) }
    ensures capacity { vec_capacity into.old ≤ vec_capacity into.new }
    ensures wanting { OnErr result (LacksRoom into.old
        (section_row world.now.rows (shown_section (key, section.now)))) }
{
    put_object(into, ObjectKind::Section, section.birth())?;
    put_decimal_under(into, b",\"process\":", section.birth().process)?;
    put_decimal_under(into, b",\"size\":", section.size())?;
    put_flag_under(into, b",\"writable\":", section.writable())?;
    put(into, b",\"bytes\":")?;
    put_hex_bytes(into, without_last_zeros(section.part(0, section.size())))?;
    put_counts(into, world, Object::Section(key))?;
    put(into, b"\n")
}

// The section at a place, in the order of making.
fn section_at<'a>(world: &'a World<'_>, place: usize) -> (Key, &'a Section)
    requires { place < length world.now.rows.sections }
    ensures row { slice_get world.now.rows.sections place
        ≡ Some (shown_section (result.0, result.1.now)) }
    ensures stands { stands world.now.births.sections result.0 ≡ true }
    ensures name { name_of world.now.births.sections result.0 ≡ (result.1.now).birth }
    ensures content { content_of world.now.rows.contents (result.1.now).birth
        ≡ (result.1.now).bytes }
{
    world.sections().row(place)
}

/// The sections, a line each.
pub(crate) fn put_sections(into: &mut Vec<u8>, world: &World) -> Result<(), OutOfMemory>
    ensures ok { Puts into.old.items into.new.items
        (lines (section_row world.now.rows) world.now.rows.sections) result }
    ensures err { OnErr result (BeginsWith into.new.items into.old.items) }
    ensures capacity { vec_capacity into.old ≤ vec_capacity into.new }
    ensures wanting { OnErr result (LacksRoom into.old
        (lines (section_row world.now.rows) world.now.rows.sections)) }
{
    for place in 0..world.sections().count() {
        let (key, section) = section_at(world, place);
        put_section(into, world, key, section)?;
    }
    Ok(())
}
