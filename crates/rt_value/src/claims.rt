use crate::{List, Text};

/// One member of a token's claims, with its value as a text; `None` where the value is null.
#[derive(Debug, Drop)]
pub struct Claim {
    pub name: Text,
    pub value: Option<Text>,
}

/// What a token says of its bearer.
#[derive(Debug, Drop)]
pub struct Claims {
    pub role: Text,
    /// The user, where the token names one by a uuid.
    pub sub: Option<u128>,
    /// The second since 1970 from which on the token is no longer valid.
    pub exp: Option<u64>,
    /// The members, of each name the last.
    pub members: List<Claim>,
}
