// One event at the table: the answer, and the table after it. What a step is is defined in specs/, from document 01's "Events" and "Refusal
// numbers", and its promises are proved in proofs/. There is no code here: the step is taken at an image (crate `lent`).
#![tactic(auto)]

use events::Answer;
use table::Table;

#[derive(Clone, Copy)]
pub struct Step {
    pub table: Table,
    pub answer: Answer,
}
