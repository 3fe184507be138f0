// The text of a month's table, written into a buffer and read out of one.
ghost use Rattle.std.specs.Prelude.{◌≡◌, length};
ghost use Rattle.month_table.specs.Writing.{written_to, buffer_after};
ghost use Rattle.month_table.specs.Reading.{reading};
ghost use Rattle.month_reading.specs.Answers.{read_of, digests_after};
ghost use Rattle.draugsten_replay.specs.Promises.{TablePromise};

use month_reading::{Read, read_table};
use month_table::{Table, Written, write_table};

// The text of a table and of the digests of its sessions, 32 bytes each. What is refused writes nothing.
#[unsafe(no_mangle)]
pub extern "C" fn draugsten_table_write(table: Table, digests: &[u8], out: &mut [u8]) -> Written
    ensures value { result ≡ written_to table.figures digests.now (length out.old) }
    ensures out_after { out.new ≡ buffer_after table.figures digests.now out.old }
    ensures promise { TablePromise }
{
    write_table(table, digests, out)
}

// The table of a text, and the digests of its sessions. What is refused stores nothing.
#[unsafe(no_mangle)]
pub extern "C" fn draugsten_table_read(text: &[u8], digests: &mut [u8]) -> Read
    ensures value { result ≡ read_of (reading text.now) (length digests.old) }
    ensures digests_after { digests.new ≡ digests_after (reading text.now) digests.old }
    ensures promise { TablePromise }
{
    read_table(text, digests)
}
