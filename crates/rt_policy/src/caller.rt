use rt_value::Claims;

/// Who asks: a role, whether it bypasses row security, and its claims.
#[derive(Clone, Copy)]
pub struct Caller<'a> {
    pub role: u32,
    pub bypass: bool,
    pub claims: &'a Claims,
}

/// Whether a row is seen, or the first reason why not.
#[derive(Clone, Copy, Debug, Drop, PartialEq, Eq)]
pub enum Seen {
    Yes,
    /// No policy for reading applies to the role.
    NoPolicy,
    /// No permissive policy is true.
    NonePermits,
    /// The number of the first restrictive policy, by name, that isn't true.
    Restrictive(u32),
}
