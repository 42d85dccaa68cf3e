// Ranges of addresses: the first of a row that meets an earlier one, in whatever sequence they come, and the first that meets one of those held. A row is
// that of an image's blocks or of a table's records.
#![tactic(auto)]

pub mod across;
pub mod address;
pub mod cover;
pub mod held;
pub mod lined;
pub mod meeting;
pub mod row;
