//! Ford's semantics (Ford 2004, section 3): recognition, abstract outcomes, well-formedness and loops, and the furthest
//! failure. The crate holds definitions and laws only; nothing in it is executed at run time.
#![tactic(auto)]

pub mod laws;
