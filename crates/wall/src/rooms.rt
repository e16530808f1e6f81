// The rooms that the program lends: 64 rows and 1,024 lines.
ghost use Rattle.std.specs.Prelude.{◌≡◌, length};
ghost use Rattle.rows.specs.Rows.{row_limit};
ghost use Rattle.lines.specs.Lines.{line_limit};

pub const ROWS: usize = 64;

const LINES: usize = 1024;

pub const ROWS_BYTES: usize = ROWS * rows::CELL;

pub const LINES_BYTES: usize = LINES * lines::CELL;

// Room for the rows. What the bytes of either room hold at first is never read.
pub fn for_rows() -> [u8; ROWS_BYTES]
    ensures { row_limit (length result) ≡ 64 }
{
    [0; ROWS_BYTES]
}

// Room for the lines.
pub fn for_lines() -> [u8; LINES_BYTES]
    ensures { line_limit (length result) ≡ 1024 }
{
    [0; LINES_BYTES]
}
