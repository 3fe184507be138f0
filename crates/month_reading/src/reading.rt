// Reading the text of a table: the digests are stored only once the whole text is judged.
ghost use Rattle.std.specs.Prelude.{◌≡◌, ◌*◌, ◌≤◌, length};
ghost use Rattle.std.proofs.lemmas.List.Edits.{sets};
ghost use Rattle.month_table.specs.Reading.{reading};
ghost use Rattle.month_reading.specs.Answers.{no_table, read_of, digests_after};
ghost use Rattle.month_reading.specs.Inner.Terms.{digests_in};
ghost use Rattle.month_reading.specs.Claims.Answers.{AnswerClaims};

use crate::finding::digest_in;
use crate::judging::judge;
use month_table::{FIGURES, Table};

// What reading gives: 0, the number of sessions and the figures; 61 and the line that is not written so; or 60 and the number of sessions,
// whose digests the buffer cannot hold.
#[repr(C)]
#[derive(Clone, Copy)]
pub struct Read {
    pub number: u32,
    pub line: u64,
    pub sessions: u64,
    pub table: Table,
}

fn no_table(number: u32, line: u64, sessions: u64) -> Read
    ensures { result ≡ no_table number line sessions }
{
    Read {
        number,
        line,
        sessions,
        table: Table {
            figures: [0; FIGURES],
        },
    }
}

// Stores the digests of so many rows.
fn store_digests(rows: &[u8], count: usize, digests: &mut [u8])
    requires { (75 * count ≤ length rows.now) × (32 * count ≤ length digests.old) }
    ensures { digests.new ≡ sets digests.old 0 (digests_in count rows.now) }
{
    for k in 0..count {
        let digest = digest_in(&rows[75 * k..]);
        words::store(digests, 32 * k, &digest);
    }
}

pub fn read_table(text: &[u8], digests: &mut [u8]) -> Read
    ensures value { result ≡ read_of (reading text.now) (length digests.old) }
    ensures digests_after { digests.new ≡ digests_after (reading text.now) digests.old }
    ensures claims { AnswerClaims }
{
    let judged = match judge(text) {
        Ok(judged) => judged,
        Err(line) => return no_table(61, line, 0),
    };
    let sessions = judged.sessions;
    if digests.len() / 32 < sessions {
        return no_table(60, 0, sessions as u64);
    }
    store_digests(&text[judged.rows.at..], sessions, digests);
    let figures = judged.rows.figures;
    Read {
        number: 0,
        line: 0,
        sessions: sessions as u64,
        table: Table { figures },
    }
}
