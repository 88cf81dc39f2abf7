// Moving kept networks between editions that have the same rules: document 02, Note 7. The definitions are in specs/.
#![tactic(auto)]

mod moved;
pub mod moving;
