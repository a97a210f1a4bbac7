//! The classes of rules: what each counts, and which part of it a change can alter. CA1 is counted as CA2 against all teams.

pub(crate) mod br1;
pub(crate) mod br2;
pub(crate) mod ca2;
pub(crate) mod ca3;
pub(crate) mod ca4;
pub(crate) mod fa2;
pub(crate) mod ga1;
pub(crate) mod se1;
