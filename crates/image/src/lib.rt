// The table image: for each place its record and its rank. What stands where is defined in specs/, from document 01's "Image" and document 02's Q-4,
// and the laws are in proofs/. There is no code here: what reads, writes, tests and changes an image is the crate `lent`.
#![tactic(auto)]

pub mod ranks;

use table::Table;

// In a record the state octet and the call come first, then connection and count, two octets each.
pub const CONNECTION_OFFSET: usize = 1 + Table::CALL_OCTETS;

pub const COUNT_OFFSET: usize = CONNECTION_OFFSET + 2;

pub const RECORD_OCTETS: usize = COUNT_OFFSET + 2;

// The rank follows the record.
pub const PLACE_OCTETS: usize = RECORD_OCTETS + 1;

pub const IMAGE_OCTETS: usize = Table::PLACES * PLACE_OCTETS;
