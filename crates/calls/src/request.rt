// What get-indices is asked for.
use inventory::StartingNumber;

// What a call asks for: a flag (0 indicator, 1 sensor), a type, a part of memory, and the number of the entry due.
#[derive(Clone, Copy)]
pub struct Request {
    pub flag: u32,
    pub item_type: u32,
    pub address: u32,
    pub size: u32,
    pub number: StartingNumber,
}
