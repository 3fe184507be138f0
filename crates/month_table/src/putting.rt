// Putting the rows of a table into a buffer.
ghost use Rattle.std.specs.Prelude.{◌≡◌, ◌<◌};
ghost use Rattle.printing.specs.Put.{Fits, Put};
ghost use Rattle.month_table.specs.Table.{label, place, row, rows_from, session_row};
ghost use Rattle.month_table.specs.Inner.Terms.{word};

use printing::Text;

// How many figures a table has: those of totals, then sessions added, refused and unread, and calls that agreed.
pub const FIGURES: usize = 39;

#[repr(C)]
#[derive(Clone, Copy)]
pub struct Table {
    pub figures: [u64; FIGURES],
}

// Where each word of the labels begins in their text, and the last ends.
// Kept: words cut out of one text, since a table of references has to be relocated, and the archives have no data that is written.
const STARTS: [usize; 16] = [0, 2, 4, 7, 10, 13, 16, 20, 24, 36, 42, 53, 68, 85, 101, 114];

// The words of the statuses, then those of the last rows.
fn word(k: usize) -> &'static [u8]
    requires { k < 15 }
    ensures { result.now ≡ word k }
{
    let words: &'static [u8] =
        b"0,1,-1,-3,-4,-9,-10,all,operations,,used,,available,,sessions,added,sessions,refused,sessions,unread,calls,agreed,";
    &words[STARTS[k]..STARTS[k + 1]]
}

// The row of a figure without its count.
pub fn put_label(p: usize, out: &mut Text)
    requires p_bound { p < 39 }
    requires fits { Fits out.old (label p) }
    ensures { Put out.old out.new (label p) }
{
    if 32 <= p {
        return out.push(word(p - 24));
    }
    out.push(&[b'1' + (p / 8) as u8, b',']);
    out.push(word(p % 8));
}

pub fn put_row(p: usize, v: u64, out: &mut Text)
    requires p_bound { p < 39 }
    requires fits { Fits out.old (row p v) }
    ensures { Put out.old out.new (row p v) }
{
    put_label(p, out);
    out.push_ended(b"", v);
}

// Where the figure of a row stands.
pub fn place_of(p: usize) -> usize
    ensures { result ≡ place p }
{
    if 32 <= p {
        return p;
    }
    if p % 8 == 7 {
        return 28 + p / 8;
    }
    7 * (p / 8) + p % 8
}

pub fn put_rows(figures: [u64; FIGURES], out: &mut Text)
    requires { Fits out.old (rows_from 39 0 figures) }
    ensures { Put out.old out.new (rows_from 39 0 figures) }
{
    for p in 0..FIGURES {
        put_row(p, figures[place_of(p)], out);
    }
}

// `session,DIGEST,1`
pub fn put_session(digest: &[u8], out: &mut Text)
    requires { Fits out.old (session_row digest.now) }
    ensures { Put out.old out.new (session_row digest.now) }
{
    out.push(b"session,");
    out.push_value(digest);
    out.push(b",1\n");
}
