//! Strictly increasing lists, members, binary search and counting, for any type and any order: definitions and their laws.
//!
//! The crate has no program code. An order is a function `cmp : X → X → Ordering` with `IsTotalOrder cmp`, and
//! `CmpEqualImpliesEq cmp` where only equal elements tie. What a list has is told by `IsMember`; a place in it is
//! numbered from 0.
#![tactic(auto)]
