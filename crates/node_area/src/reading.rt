// Reading a node work area: a check of the whole, and a cursor that gives its operations one at a time.
ghost use Rattle.std.specs.Prelude.{◌≡◌, ◌+◌, ◌-◌, ◌<◌, ◌≤◌, length, drop, MatchOption};
ghost use Rattle.words.specs.Numbers.{be32, words};
ghost use Rattle.node_area.specs.Head.{area_size, head_size};
ghost use Rattle.node_area.specs.Reading.{refusal_number, opcode_in, count_in, fault_of, last_after, verdict, operations_at, single, read_by, reading, check_of};
ghost use Rattle.node_area.specs.Inner.Terms.{operations_in};
ghost use Rattle.node_area.specs.Claims.Reader.{NodeReaderExactly};
ghost use Rattle.node_area.specs.Cases.Reading.{ReadingCases};
ghost use Rattle.node_area.specs.Claims.Cursor.{next_of, StepsGive, start_of, EntriesInOrder};

use crate::head::{AREA_SIZE, HEAD_SIZE, is_reserved, reserved_from};
use journal::Operation;
use words::Refused;

// Why an area is refused.
#[derive(Clone, Copy, PartialEq, Eq)]
pub enum Refusal {
    Size,
    Reserved,
    Opcode,
    Past,
    Odd,
    Order,
    Unterminated,
}

impl From<Refusal> for u32 {
    ghost from_gives = { λ refusal number. number ≡ refusal_number refusal };

    fn from(refusal: Refusal) -> u32 {
        match refusal {
            Refusal::Size => 20,
            Refusal::Reserved => 21,
            Refusal::Opcode => 22,
            Refusal::Past => 24,
            Refusal::Odd => 25,
            Refusal::Order => 26,
            Refusal::Unterminated => 27,
        }
    }
}

// The word of an operator: the opcode in the high byte, and the number of operand words in the low three.
#[derive(Clone, Copy)]
struct Operator(u32);

impl Operator {
    fn code(self) -> u32
        ensures { result ≡ opcode_in self.0 }
    {
        self.0 / 0x0100_0000
    }

    fn count(self) -> usize
        ensures { result ≡ count_in self.0 }
    {
        (self.0 % 0x0100_0000) as usize
    }

    // Its first fault, with `left` words behind it; `last` is the opcode of the last operator before it that has operands. One with no
    // operands has none.
    #[tactic(auto, using(std::proofs::lemmas::Bool::Decides::nat_tests), unfolding(crate::specs::Reading::fault_of))]
    fn fault(self, last: u32, left: usize) -> Result<(), Refusal>
        ensures { result ≡ fault_of self.0 last left }
    {
        let code = self.code();
        let count = self.count();
        if count == 0 {
            return Ok(());
        }
        if code < 1 || 3 < code {
            return Err(Refusal::Opcode);
        }
        if code == 3 && count % 2 == 1 {
            return Err(Refusal::Odd);
        }
        if code < last {
            return Err(Refusal::Order);
        }
        if left < count {
            return Err(Refusal::Past);
        }
        Ok(())
    }

    // The opcode before the operator that follows this one, where `last` is the one before it. One with no operands does not count.
    #[tactic(auto, using(std::proofs::lemmas::Bool::Decides::nat_tests), unfolding(crate::specs::Reading::last_after))]
    fn last_after(self, last: u32) -> u32
        ensures { result ≡ last_after last self.0 }
    {
        if self.count() == 0 {
            return last;
        }
        self.code()
    }

    // How many operations it has.
    #[tactic(auto, using(std::proofs::lemmas::Bool::Decides::nat_tests))]
    fn operations(self) -> usize
        ensures { result ≡ operations_in self.0 }
    {
        if self.code() == 3 {
            return self.count() / 2;
        }
        self.count()
    }
}

// The operators of an area, which begin behind its head.
#[tactic(auto, using(crate::proofs::Verdicts::turns))]
fn check_operators(area: &[u8]) -> Result<usize, Refused<Refusal>>
    requires { length area.now ≡ area_size }
    ensures { result ≡ check_of (read_by (verdict 0 head_size 0 (words (drop head_size area.now)))
        (operations_at (words (drop head_size area.now)) 0 0)) }
{
    let mut at = HEAD_SIZE;
    let mut last: u32 = 0;
    let mut entries: usize = 0;
    while at < AREA_SIZE {
        let word = words::read_be32(area, at);
        if word == 0 {
            return Ok(entries);
        }
        let operator = Operator(word);
        let behind = at + 4;
        operator
            .fault(last, (AREA_SIZE - behind) / 4)
            .map_err(|refusal| Refused {
                refusal,
                offset: at,
            })?;
        entries += operator.operations();
        last = operator.last_after(last);
        at = behind + 4 * operator.count();
    }
    Err(Refused {
        refusal: Refusal::Unterminated,
        offset: AREA_SIZE,
    })
}

// The whole area of a call of a scope judged: the number of its operations, or the first refusal.
pub fn check_area(scope: u32, area: &[u8]) -> Result<usize, Refused<Refusal>>
    ensures value { result ≡ check_of (reading scope area.now) }
    ensures exactly { NodeReaderExactly }
    ensures cases { ReadingCases }
{
    if area.len() != AREA_SIZE {
        return Err(Refused {
            refusal: Refusal::Size,
            offset: 0,
        });
    }
    if !is_reserved(scope, area) {
        return Err(Refused {
            refusal: Refusal::Reserved,
            offset: reserved_from(scope),
        });
    }
    check_operators(area)
}

// Where a reader stands: `left` operand words of an opcode are still to come from byte `at` on.
#[derive(Clone, Copy, PartialEq, Eq)]
pub struct Cursor {
    pub at: usize,
    pub code: u32,
    pub left: usize,
}

// The word at a place of the area, where a whole one stands there.
fn word_at(area: &[u8], at: usize) -> Option<u32>
    ensures { MatchOption result (length area.now - at < 4) (λ w. (at + 4 ≤ length area.now) × (w ≡ be32 area.now at)) }
{
    if area.len().saturating_sub(at) < 4 {
        return None;
    }
    Some(words::read_be32(area, at))
}

// The operation of one operand word.
#[tactic(auto, using(std::proofs::lemmas::Bool::Decides::nat_tests))]
fn single_of(code: u32, word: u32) -> Operation
    ensures { result ≡ single code word }
{
    if code == 1 {
        return Operation::Delete(word);
    }
    Operation::Update(word)
}

impl Cursor {
    // Before the first operator.
    pub fn start() -> Cursor
        ensures value { result ≡ start_of }
        ensures order { EntriesInOrder }
    {
        Cursor {
            at: HEAD_SIZE,
            code: 0,
            left: 0,
        }
    }

    // The first of the operations that the cursor has before it, with the cursor behind that one, or none where it has none.
    // From the start these are, in an area that a check passes, the area's operations in order.
    #[tactic(auto, using(crate::proofs::Steps::steps), unfolding(crate::specs::Claims::Cursor::next_of))]
    pub fn next(self, area: &[u8]) -> Option<(Operation, Cursor)>
        ensures value { result ≡ next_of area.now self }
        ensures steps { StepsGive }
    {
        let mut cursor = self;
        while cursor.left == 0 {
            let word = word_at(area, cursor.at)?;
            if word == 0 {
                return None;
            }
            let operator = Operator(word);
            cursor = Cursor {
                at: cursor.at + 4,
                code: operator.code(),
                left: operator.count(),
            };
        }
        cursor.operation(area)
    }

    // The operation whose operands are to come, with the cursor behind them.
    #[tactic(auto, using(crate::proofs::Steps::steps), unfolding(crate::specs::Claims::Cursor::next_of))]
    fn operation(self, area: &[u8]) -> Option<(Operation, Cursor)>
        requires { 0 < self.left }
        ensures { result ≡ next_of area.now self }
    {
        let first = word_at(area, self.at)?;
        if self.code != 3 {
            let behind = Cursor {
                at: self.at + 4,
                left: self.left - 1,
                ..self
            };
            return Some((single_of(self.code, first), behind));
        }
        let second = word_at(area, self.at + 4)?;
        let behind = Cursor {
            at: self.at + 8,
            left: self.left.saturating_sub(2),
            ..self
        };
        Some((Operation::Add(first, second), behind))
    }
}
