// The end of bytes that a NUL ends.
ghost use Rattle.std.specs.Prelude.{◌≡◌, ◌==◌, cond, ◌+◌, ◌<◌, length, position};
ghost use Rattle.words.specs.Nul.{until_nul, is_ended};

// The place of the first NUL among a few bytes.
fn first_nul(bytes: &[u8]) -> Option<usize>
    ensures { result ≡ position (λ b. b == 0) bytes.now }
{
    bytes.iter().position(|b| *b == 0)
}

// How many bytes stand before the first NUL, or how many there are. A turn tests six, of those tried the quickest.
pub fn until_nul(bytes: &[u8]) -> usize
    ensures { result ≡ length (until_nul bytes.now) }
{
    let mut at = 0;
    let place = loop {
        if bytes.len() - at < 6 {
            break match first_nul(&bytes[at..]) {
                Some(before) => at + before,
                None => bytes.len(),
            };
        }
        if let Some(before) = first_nul(&bytes[at..at + 6]) {
            break at + before;
        }
        at += 6;
    };
    place
}

// The length of the string of 1 to `limit` bytes that a NUL ends, if the bytes begin with one.
pub fn ended_length(bytes: &[u8], limit: usize) -> Option<usize>
    requires { limit < 0x1_0000_0000 }
    ensures { result ≡ cond (is_ended limit bytes.now) (Some (length (until_nul bytes.now))) None }
{
    let end = bytes.len().min(limit + 1);
    let before = until_nul(&bytes[..end]);
    if before == 0 || before == end {
        return None;
    }
    Some(before)
}
