//! Laws on what the put calls append.

ghost use Rattle.elf_file.specs.Laws.{SectionsAreReadBack, SegmentsAreReadBack, RowsAreReadBack, EntriesAreReadBack, HeadersStand, HeadersAreReadBack, SizesAreKept};

/// What a put call other than `put_header` appends, the reader of the same record gives back, whatever
/// stands before it and behind it.
pub fn records_are_read_back()
    ensures sections { SectionsAreReadBack }
    ensures segments { SegmentsAreReadBack }
    ensures rows { RowsAreReadBack }
    ensures entries { EntriesAreReadBack }
{}

/// What `put_header` appends has each field at its place, and a file that begins with it has that header,
/// where the numbers of its records stand in the file header itself and its tables lie in the file.
pub fn headers_are_read_back()
    ensures places { HeadersStand }
    ensures read { HeadersAreReadBack }
{}

/// What a put call appends has the size of the width's records.
pub fn sizes_are_kept()
    ensures { SizesAreKept }
{}
