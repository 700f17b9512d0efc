//! Access tokens and their claims: JSON Web Tokens (RFC 7519) signed with HMAC-SHA-256 (RFC 7515, RFC 2104).
#![tactic(auto)]

mod checking;
mod claims;
mod comparing;
mod fault;
pub mod laws;
mod mac;
mod parts;
mod signing;

pub use checking::check;
pub use claims::claims_of;
pub use fault::TokenFault;
pub use mac::hmac;
pub use signing::sign;
