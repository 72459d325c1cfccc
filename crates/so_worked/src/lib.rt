//! Worked cases as equations: what the definitions give in cases that were worked by hand, by which a reader can try
//! them. No program code. A lemma is a table of cases with one proof, that both sides compute to the same; of a
//! definition that is a relation, it shows that the relation holds in the case.
//!
//! An equation shows that the definition gives the case. That the code gives the definition is the contract of each
//! function; that what was compiled gives it too is shown by the programs that run over data.
#![tactic(auto)]
