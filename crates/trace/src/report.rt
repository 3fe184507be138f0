// What a replay came to.

// So many calls agreed; or a call's recorded buffer differs at an offset; or a record is malformed. Calls and records count from 1.
#[derive(Clone, Copy, PartialEq, Eq)]
pub enum Report {
    Agreed(u32),
    Differs(u32, u32),
    Malformed(u64),
}
