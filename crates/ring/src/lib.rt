//! Identities and inequalities of commutative rings and of the integers, proved by computation.
//!
//! The crate has no program code. A ring is the record `Ops` of its operations with the laws `LawsOn`, which may hold
//! among some of its elements alone. An identity is proved by `by_ring`: both sides are written as expressions, come to
//! one sorted polynomial, and so have one value.
#![tactic(auto)]
