// Whether a text is that of a table, line by line. What is wrong is told by the number of the first line that is.
ghost use Rattle.std.specs.Prelude.{◌≤◌, length};
ghost use Rattle.month_reading.specs.Inner.Terms.{RowsRead, SessionsRead, Judges};

use crate::finding::{is_session, read_row};
use month_table::{FIGURES, place_of};

// What the rows of the figures give: the figures, and the place after them.
#[derive(Clone, Copy)]
pub struct Rows {
    pub at: usize,
    pub figures: [u64; FIGURES],
}

// What a text gives: the figures, and how many sessions there are after their rows.
#[derive(Clone, Copy)]
pub struct Judged {
    pub rows: Rows,
    pub sessions: usize,
}

fn read_rows(text: &[u8]) -> Result<Rows, u64>
    requires { 19 ≤ length text.now }
    ensures { RowsRead text.now result }
{
    let mut figures = [0u64; FIGURES];
    let mut at: usize = 19;
    for p in 0..FIGURES {
        let Some(row) = read_row(p, &text[at..]) else {
            return Err(p as u64 + 2);
        };
        figures[place_of(p)] = row.count;
        at += row.length;
    }
    Ok(Rows { at, figures })
}

// How many sessions there are.
fn read_sessions(rows: &[u8]) -> Result<usize, u64>
    ensures { SessionsRead rows.now result }
{
    let mut at = 0;
    let mut count: usize = 0;
    // Kept: `is_session` is told of the text from a row on, as the reading is; a `chunks(75)` would need it told of the row alone too.
    while at < rows.len() {
        if !is_session(&rows[at..]) {
            return Err(count as u64 + 41);
        }
        at += 75;
        count += 1;
    }
    Ok(count)
}

pub fn judge(text: &[u8]) -> Result<Judged, u64>
    ensures { Judges text.now result }
{
    if !text.starts_with(b"token,status,count\n") {
        return Err(1);
    }
    let rows = read_rows(text)?;
    let sessions = read_sessions(&text[rows.at..])?;
    Ok(Judged { rows, sessions })
}
