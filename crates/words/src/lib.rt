// Numbers in bytes: big-endian and little-endian, 16, 32 and 64 bits; bytes that are zero or that a NUL ends; a refusal with its place.
#![tactic(auto)]

mod nul;
mod reading;
mod refused;
mod storing;
mod zero;

pub use nul::{ended_length, until_nul};
pub use reading::{read_be16, read_be32, read_be64, read_le16, read_le32, read_le64};
pub use refused::Refused;
pub use storing::{store, store_be16, store_be32, store_be64, store_zeros};
pub use zero::are_zeros;
