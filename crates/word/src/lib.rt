// 32-bit words. Each function is total, and its contract is one equation with a definition of specs/.
#![tactic(auto)]

pub mod arithmetic;
pub mod bits;
pub mod sign;
