// The longest run, by arithmetic from how many operations of each opcode remain.
ghost use Rattle.std.specs.Prelude.{◌≡◌, ◌-◌};
ghost use Rattle.nodes.specs.Run.{part_words, cut};
ghost use Rattle.nodes.specs.Claims.Longest.{CutIsLongest};

use journal::Counts;

// The words that a run may cost.
const AREA_WORDS: usize = 1019;

// The words left of a room once n operand words stand in it with their operator.
fn room_after(room: usize, n: usize) -> usize
    ensures { result ≡ room - part_words n }
{
    if n == 0 {
        return room;
    }
    room.saturating_sub(n).saturating_sub(1)
}

// How many deletes, updates and additions the longest run has, from how many remain.
pub fn longest_run(remaining: Counts) -> Counts
    ensures value { result ≡ cut remaining }
    ensures longest { CutIsLongest }
{
    let deletes = remaining.deletes.min(AREA_WORDS - 1);
    let second = room_after(AREA_WORDS, deletes);
    let updates = remaining.updates.min(second.saturating_sub(1));
    let third = room_after(second, updates);
    let additions = remaining.additions.min(third.saturating_sub(1) / 2);
    Counts {
        deletes,
        updates,
        additions,
    }
}
