// The operations and words that an update-nodes call handed out.
ghost use Rattle.std.specs.Prelude.{◌≡◌, length, drop};
ghost use Rattle.calls.specs.Lent.{part_at};
ghost use Rattle.words.specs.Numbers.{words};
ghost use Rattle.counting.specs.Area.{no_tally, words_used, tally_of};

// How many operations an area hands out, and how many words they take, operators and operands.
#[derive(Clone, Copy)]
pub struct Tally {
    pub operations: u64,
    pub words: u64,
}

pub fn no_tally() -> Tally
    ensures { result ≡ no_tally }
{
    Tally {
        operations: 0,
        words: 0,
    }
}

// The words in front of the terminator, from operator to operator; all 1,020 where there is none.
fn words_in(area: &[u8]) -> u64
    requires { length area.now ≡ 4096 }
    ensures { result ≡ words_used 0 (words (drop 16 area.now)) }
{
    let mut at: usize = 16;
    while at < 4096 {
        let word = words::read_be32(area, at);
        if word == 0 {
            return ((at - 16) / 4) as u64;
        }
        at += 4 + 4 * ((word % 0x0100_0000) as usize);
    }
    1020
}

// What an area hands out; nothing where it is refused.
fn tally_in(scope: u32, area: &[u8]) -> Tally
    requires { length area.now ≡ 4096 }
    ensures { result ≡ tally_of scope area.now }
{
    let Ok(operations) = node_area::check_area(scope, area) else {
        return no_tally();
    };
    Tally {
        operations: operations as u64,
        words: words_in(area),
    }
}

// The area of an update-nodes call; nothing where it passes the end of memory.
pub fn tally_at(memory: &[u8], address: u32, scope: u32) -> Tally
    ensures { result ≡ tally_of scope (part_at memory.now address 4096) }
{
    let at = address as usize;
    if memory.len() < at + 4096 {
        return no_tally();
    }
    tally_in(scope, &memory[at..at + 4096])
}
