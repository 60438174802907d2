// The numbers that a record gives as 64-bit floats: a rotation in degrees, and a depth element's number.
// Each is stated by its 64 bits, so what is handed out is one float and no other.
#![tactic(auto)]

pub mod degrees;
pub mod depth;
