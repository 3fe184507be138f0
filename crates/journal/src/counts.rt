// What a scan tells of a well-formed journal, which the calls hand on.

// How many deletes, updates and additions a row reports of a journal.
#[derive(Clone, Copy)]
pub struct Counts {
    pub deletes: usize,
    pub updates: usize,
    pub additions: usize,
}
