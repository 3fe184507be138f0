// The text of a table in a buffer that is lent.
ghost use Rattle.std.specs.Prelude.{◌≡◌, ◌+◌, ◌*◌, ◌/◌, ◌^◌, ◌<◌, length, SomeIff};
ghost use Rattle.printing.specs.Put.{Fits, Put};
ghost use Rattle.month_table.specs.Table.{row, rows_from, session_rows, text};
ghost use Rattle.month_table.specs.Writing.{written_to, buffer_after};

use crate::putting::{FIGURES, Table, place_of, put_row, put_rows, put_session};
use printing::Text;

// What writing gives: 0 and the length of the text, or the number of the refusal; 60 gives the length that is needed.
#[repr(C)]
#[derive(Clone, Copy)]
pub struct Written {
    pub number: u32,
    pub length: usize,
}

fn row_length(p: usize, v: u64) -> usize
    requires { p < 39 }
    ensures { result ≡ length (row p v) }
{
    let mut room = [0u8; 64];
    let mut row = Text::new(&mut room);
    put_row(p, v, &mut row);
    row.length
}

fn rows_length(figures: [u64; FIGURES]) -> usize
    ensures { result ≡ length (rows_from 39 0 figures) }
{
    let mut length: usize = 0;
    for p in 0..FIGURES {
        length += row_length(p, figures[place_of(p)]);
    }
    length
}

// A row for each whole digest.
fn put_sessions(digests: &[u8], out: &mut Text)
    requires { Fits out.old (session_rows (length digests.now / 32) digests.now) }
    ensures { Put out.old out.new (session_rows (length digests.now / 32) digests.now) }
{
    for k in 0..digests.len() / 32 {
        put_session(&digests[32 * k..32 * k + 32], out);
    }
}

fn put_text(figures: [u64; FIGURES], digests: &[u8], out: &mut Text)
    requires { Fits out.old (text figures digests.now) }
    ensures { Put out.old out.new (text figures digests.now) }
{
    out.push(b"token,status,count\n");
    put_rows(figures, out);
    put_sessions(digests, out);
}

// The length of the text of so many sessions, if it is below 2^64.
fn text_length(figures: [u64; FIGURES], sessions: usize) -> Option<usize>
    ensures { SomeIff result (19 + length (rows_from 39 0 figures) + 75 * sessions < 2 ^ 64) (19 + length (rows_from 39 0 figures) + 75 * sessions) }
{
    sessions
        .checked_mul(75)?
        .checked_add(19 + rows_length(figures))
}

// Writes the text of a table and of the digests of its sessions, 32 bytes each.
pub fn write_table(table: Table, digests: &[u8], out: &mut [u8]) -> Written
    ensures value { result ≡ written_to table.figures digests.now (length out.old) }
    ensures out_after { out.new ≡ buffer_after table.figures digests.now out.old }
{
    if digests.len() % 32 != 0 {
        return Written {
            number: 62,
            length: 0,
        };
    }
    let figures = table.figures;
    let Some(length) = text_length(figures, digests.len() / 32) else {
        return Written {
            number: 60,
            length: usize::MAX,
        };
    };
    if out.len() < length {
        return Written { number: 60, length };
    }
    let mut text = Text::new(out);
    put_text(figures, digests, &mut text);
    Written {
        number: 0,
        length: text.length,
    }
}
