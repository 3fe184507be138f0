// The rows that begin a text.
ghost use Rattle.std.specs.Prelude.{◌≡◌, ◌+◌, ◌-◌, ◌*◌, ◌%◌, ◌<◌, ◌≤◌, length, drop, get_or};
ghost use Rattle.month_table.specs.Table.{label};
ghost use Rattle.month_table.specs.Reading.{line, value_from, digit_value, digest_in, is_session};
ghost use Rattle.month_reading.specs.Inner.Terms.{count_of, row_in};

use month_table::{put_label, put_row, put_session};
use printing::Text;

// A row that begins a text: its count and its length.
#[derive(Clone, Copy)]
pub struct Row {
    pub count: u64,
    pub length: usize,
}

// How many bytes stand before the first newline.
fn line_length(text: &[u8]) -> usize
    ensures { result ≡ length (line text.now) }
{
    // Kept: `position` stands on a call that gives a pointer in a pair, a form that the modules of the archives may not have.
    for i in 0..text.len() {
        if text[i] == b'\n' {
            return i;
        }
    }
    text.len()
}

fn digit(b: u8) -> u64
    ensures { result ≡ b - 48 }
{
    u64::from(b.saturating_sub(b'0'))
}

// A count, if it is below 2^64.
fn value_of(digits: &[u8]) -> Option<u64>
    ensures { result ≡ count_of (value_from 0 digits.now) }
{
    let mut value: u64 = 0;
    for b in digits {
        value = value.checked_mul(10)?.checked_add(digit(*b))?;
    }
    Some(value)
}

// The count in the first line of a text, after so many bytes.
fn count_after(text: &[u8], skip: usize) -> Option<u64>
    ensures { result ≡ count_of (value_from 0 (drop skip (line text.now))) }
{
    let end = line_length(text);
    if end < skip {
        return Some(0);
    }
    value_of(&text[skip..end])
}

fn label_length(p: usize) -> usize
    requires { p < 39 }
    ensures { result ≡ length (label p) }
{
    let mut room = [0u8; 64];
    let mut label = Text::new(&mut room);
    put_label(p, &mut label);
    label.length
}

// Row p at the front of a text: made for the count that stands there, and compared.
pub fn read_row(p: usize, text: &[u8]) -> Option<Row>
    requires { p < 39 }
    ensures { result ≡ row_in p text.now }
{
    let count = count_after(text, label_length(p))?;
    let mut room = [0u8; 64];
    let mut row = Text::new(&mut room);
    put_row(p, count, &mut row);
    if text.starts_with(row.bytes()) {
        return Some(Row {
            count,
            length: row.length,
        });
    }
    None
}

fn hex_value(b: u8) -> u64
    ensures { result ≡ digit_value b }
{
    match b {
        0..=57 => digit(b),
        _ => u64::from(b.saturating_sub(87)),
    }
}

// The byte that two hexadecimal digits make.
fn join(high: u64, low: u64) -> u8
    requires { (high < 256) × (low < 256) }
    ensures { result ≡ (16 * high + low) % 256 }
{
    ((16 * high + low) % 256) as u8
}

// The digest in a session's row.
pub fn digest_in(text: &[u8]) -> [u8; 32]
    requires { 75 ≤ length text.now }
    ensures { result ≡ digest_in text.now }
{
    let mut digest = [0u8; 32];
    for i in 0..32 {
        let at = 8 + 2 * i;
        digest[i] = join(hex_value(text[at]), hex_value(text[at + 1]));
    }
    digest
}

pub fn is_session(text: &[u8]) -> bool
    ensures { result ≡ is_session text.now }
{
    if text.len() < 75 {
        return false;
    }
    let digest = digest_in(text);
    let mut room = [0u8; 75];
    let mut row = Text::new(&mut room);
    put_session(&digest, &mut row);
    text.starts_with(row.bytes())
}
