// An opcode, and an operation: an opcode with its operands.
ghost use Rattle.std.specs.Prelude.{◌≡◌};
ghost use Rattle.journal.specs.Journal.{number};

// Kept: the kinds of records stay numbers, which the scan computes with instead of branching; opcodes, which nothing in it computes, are these.
#[derive(Clone, Copy, PartialEq, Eq)]
pub enum Opcode {
    Delete,
    Update,
    Add,
}

impl Opcode {
    // Its number in an operator.
    pub fn number(self) -> usize
        ensures { result ≡ number self }
    {
        match self {
            Opcode::Delete => 1,
            Opcode::Update => 2,
            Opcode::Add => 3,
        }
    }
}

#[derive(Clone, Copy)]
pub enum Operation {
    // The phandle.
    Delete(u32),
    // The phandle.
    Update(u32),
    // The parent's phandle and the drc-index.
    Add(u32, u32),
}
