// Sections, views and memory, through whole scripts. The transcripts are written out by hand.
use crate::common::replayed;
use std::test::Fail;

// The last page of a section of 16 pages is mapped twice. A page more would pass the section. What is written through
// the one view is read through the other, which may not be written; no view holds bytes behind the page. The handle and
// both views count for the section.
#[test]
fn views_of_one_page_show_the_same_bytes(rt: HostRuntime) -> Result<(), Fail> {
    replayed(
        &rt,
        rt.alloc(),
        "boot 20 24\n\
         24 NtCreateSection 65536 4\n\
         24 NtMapViewOfSection 4 61440 4096 4\n\
         24 NtMapViewOfSection 4 61440 4097 4\n\
         24 NtMapViewOfSection 4 61440 0 2\n\
         24 NtWriteVirtualMemory 65536 414243\n\
         24 NtReadVirtualMemory 0x20000 3\n\
         24 NtWriteVirtualMemory 0x20000 44\n\
         24 NtReadVirtualMemory 0x10fff 2\n\
         24 NtUnmapViewOfSection 0x30000\n\
         24 NtQueryObject 4\n",
        0,
        "1 - boot 00000000\n\
         2 24 NtCreateSection 00000000 h=4\n\
         3 24 NtMapViewOfSection 00000000 base=00010000 size=4096\n\
         4 24 NtMapViewOfSection c000001f\n\
         5 24 NtMapViewOfSection 00000000 base=00020000 size=4096\n\
         6 24 NtWriteVirtualMemory 00000000\n\
         7 24 NtReadVirtualMemory 00000000 data=414243\n\
         8 24 NtWriteVirtualMemory c0000005\n\
         9 24 NtReadVirtualMemory c0000005\n\
         10 24 NtUnmapViewOfSection c0000019\n\
         11 24 NtQueryObject 00000000 type=section access=000f001f handles=1 pointers=3\n\
         end 11 11 3\n",
    )
}

// Two views lie one behind the other. A range that begins in the first and ends in the second is held by neither, also
// where the second shows the same section.
#[test]
fn range_lies_in_one_view(rt: HostRuntime) -> Result<(), Fail> {
    replayed(
        &rt,
        rt.alloc(),
        "boot 20 24\n\
         24 NtCreateSection 65536 4\n\
         24 NtMapViewOfSection 4 0 0 4\n\
         24 NtMapViewOfSection 4 0 61441 4\n\
         24 NtWriteVirtualMemory 0x1fffe 4142\n\
         24 NtWriteVirtualMemory 0x1ffff 4344\n\
         24 NtReadVirtualMemory 0x1ffff 2\n\
         24 NtReadVirtualMemory 0x2fffd 3\n\
         24 NtReadVirtualMemory 0x2ffff 2\n",
        0,
        "1 - boot 00000000\n\
         2 24 NtCreateSection 00000000 h=4\n\
         3 24 NtMapViewOfSection 00000000 base=00010000 size=65536\n\
         4 24 NtMapViewOfSection 00000000 base=00020000 size=65536\n\
         5 24 NtWriteVirtualMemory 00000000\n\
         6 24 NtWriteVirtualMemory c0000005\n\
         7 24 NtReadVirtualMemory c0000005\n\
         8 24 NtReadVirtualMemory 00000000 data=004142\n\
         9 24 NtReadVirtualMemory c0000005\n\
         end 9 9 3\n",
    )
}

// A section whose last handle was closed stands while a view shows it, and counts for its maker until then. When the
// view goes, so does the section, and one of 4 MiB has room.
#[test]
fn section_stands_by_its_last_view(rt: HostRuntime) -> Result<(), Fail> {
    replayed(
        &rt,
        rt.alloc(),
        "boot 20 24\n\
         24 NtCreateSection 1 4\n\
         24 NtMapViewOfSection 4 0 0 4\n\
         24 NtWriteVirtualMemory 0x10000 6869\n\
         24 NtClose 4\n\
         24 NtReadVirtualMemory 0x10000 3\n\
         24 NtCreateSection 4194304 4\n\
         24 NtUnmapViewOfSection 0x10fff\n\
         24 NtReadVirtualMemory 0x10000 1\n\
         24 NtCreateSection 4194304 4\n\
         24 NtMapViewOfSection 4 4190208 0 2\n\
         24 NtReadVirtualMemory 0x10ffe 2\n",
        0,
        "1 - boot 00000000\n\
         2 24 NtCreateSection 00000000 h=4\n\
         3 24 NtMapViewOfSection 00000000 base=00010000 size=4096\n\
         4 24 NtWriteVirtualMemory 00000000\n\
         5 24 NtClose 00000000\n\
         6 24 NtReadVirtualMemory 00000000 data=686900\n\
         7 24 NtCreateSection c0000044\n\
         8 24 NtUnmapViewOfSection 00000000\n\
         9 24 NtReadVirtualMemory c0000005\n\
         10 24 NtCreateSection 00000000 h=4\n\
         11 24 NtMapViewOfSection 00000000 base=00010000 size=4096\n\
         12 24 NtReadVirtualMemory 00000000 data=0000\n\
         end 12 12 3\n",
    )
}

// Where several refusals hold, the earliest is told, and nothing changes. Another process has addresses of its own.
#[test]
fn calls_on_sections_are_refused_in_order(rt: HostRuntime) -> Result<(), Fail> {
    replayed(
        &rt,
        rt.alloc(),
        "boot 20 24\n\
         boot 32 36\n\
         24 NtCreateSection 0 3\n\
         24 NtCreateSection 0 2\n\
         24 NtCreateSection 4194305 2\n\
         24 NtCreateSection 4097 2\n\
         24 NtMapViewOfSection 8 1 0 3\n\
         24 NtMapViewOfSection 4 1 0 3\n\
         24 NtMapViewOfSection 4 8192 0 3\n\
         24 NtMapViewOfSection 4 8192 0 4\n\
         24 NtMapViewOfSection 4 8192 0 2\n\
         24 NtMapViewOfSection 4 4096 1 2\n\
         24 NtWriteVirtualMemory 0x10000 41\n\
         24 NtReadVirtualMemory 0 0\n\
         24 NtReadVirtualMemory 0x10000 4097\n\
         36 NtReadVirtualMemory 0x10000 1\n\
         36 NtUnmapViewOfSection 0x10000\n\
         24 NtReadVirtualMemory 0x10fff 1\n",
        0,
        "1 - boot 00000000\n\
         2 - boot 00000000\n\
         3 24 NtCreateSection c0000045\n\
         4 24 NtCreateSection c00000f2\n\
         5 24 NtCreateSection c0000040\n\
         6 24 NtCreateSection 00000000 h=4\n\
         7 24 NtMapViewOfSection c0000008\n\
         8 24 NtMapViewOfSection c0000220\n\
         9 24 NtMapViewOfSection c0000045\n\
         10 24 NtMapViewOfSection c000004e\n\
         11 24 NtMapViewOfSection c000001f\n\
         12 24 NtMapViewOfSection 00000000 base=00010000 size=4096\n\
         13 24 NtWriteVirtualMemory c0000005\n\
         14 24 NtReadVirtualMemory c000000d\n\
         15 24 NtReadVirtualMemory c000000d\n\
         16 36 NtReadVirtualMemory c0000005\n\
         17 36 NtUnmapViewOfSection c0000019\n\
         18 24 NtReadVirtualMemory 00000000 data=00\n\
         end 18 18 5\n",
    )
}

// A process ends, and with it its handle, its view and its section: the other process and its thread are left.
#[test]
fn views_go_with_their_process(rt: HostRuntime) -> Result<(), Fail> {
    replayed(
        &rt,
        rt.alloc(),
        "boot 20 24\n\
         boot 32 36\n\
         24 NtCreateSection 4096 4\n\
         24 NtMapViewOfSection 4 0 0 4\n\
         24 NtTerminateProcess self 0\n",
        0,
        "1 - boot 00000000\n\
         2 - boot 00000000\n\
         3 24 NtCreateSection 00000000 h=4\n\
         4 24 NtMapViewOfSection 00000000 base=00010000 size=4096\n\
         5 ~24 died 00000000\n\
         end 5 5 2\n",
    )
}
