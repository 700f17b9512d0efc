use case_lines::text_of;
use rt_token::{hmac, sign};
use std::alloc::Global;
use std::fmt::Write;
use std::io;

/// The authentication code of bytes, by hexadecimal digits.
pub fn code(alloc: Global, key: &[u8], bytes: &[u8]) -> io::Result<String> {
    let mut digits = String::new(alloc);
    for byte in hmac(key, bytes) {
        write!(digits, "{byte:02x}")?;
    }
    Ok(digits)
}

/// The token of claims.
pub fn signed(alloc: Global, secret: &[u8], claims: &[u8]) -> io::Result<String> {
    let token = sign(alloc, secret, claims)?;
    Ok(String::from_str(alloc, text_of(token.get())?)?)
}
