// The intake: 01's state between calls, and the calls. Each call is lent just the buffers that it may
// write. A refusal leaves the state as it was and writes nothing.
ghost use Rattle.std.specs.Prelude.{◌≡◌};
ghost use Rattle.refusal.specs.Refusal.{answer_number, answer_or};
ghost use Rattle.pieces.specs.Setting.{cols};
ghost use Rattle.pieces.specs.Opening.{start_state};
ghost use Rattle.columns.specs.Intake.{taken_with, with_state, zero_intake, store_of, open_answer, open_left, rows_answer, rows_left, s_words_answer, s_words_left, cells_answer, cells_left, tables_answer, tables_left, finish_answer, finish_left};

use crate::opening::open_parts;
use crate::take::{Counts, OPEN, take_cells, take_finish, take_rows, take_s_words, take_tables};
use refusal::Refusal;
use selector::{MOST_GATES, Marks};
use tree::plan::Plan;

// A plan, how much of each section came in so far with the phase, and a mark for each gate that is in
// a row.
#[derive(Clone, Copy)]
pub struct Intake {
    pub plan: Plan,
    pub counts: Counts,
    pub used: Marks,
}

impl Intake {
    // A state before its first piece.
    fn start(plan: Plan, phase: u64) -> Self
        ensures { result ≡ with_state plan (start_state phase) }
    {
        let counts = Counts {
            rows: 0,
            s_words: 0,
            cells: 0,
            tables: 0,
            table_rows: 0,
            phase,
        };
        Intake {
            plan,
            counts,
            used: [0; MOST_GATES],
        }
    }

    // The plan that the state was opened with.
    pub fn plan(self) -> Plan
        ensures { result ≡ self.plan }
    {
        self.plan
    }

    // Opens the columns of a plan: named words zeroed, labels written, words beyond kept.
    pub fn open(
        plan: Plan,
        constants: &mut [u64],
        copies: &mut [u64],
        scratch: &mut [u64],
        tables: &mut [u64],
    ) -> Result<Intake, Refusal>
        ensures value { answer_number result ≡ (open_answer plan (store_of constants.old copies.old scratch.old tables.old)).number }
        ensures state_value { answer_or zero_intake result ≡ (open_answer plan (store_of constants.old copies.old scratch.old tables.old)).state }
        ensures tables_after { store_of constants.new copies.new scratch.new tables.new ≡ open_left plan (store_of constants.old copies.old scratch.old tables.old) }
    {
        open_parts(plan.parts(), constants, copies, scratch, tables)?;
        Ok(Intake::start(plan, OPEN))
    }

    // Row records: gate, number of constants, constants.
    pub fn rows(&mut self, piece: &[u64], constants: &mut [u64]) -> Result<(), Refusal>
        ensures value { taken_with (answer_number result) self.new ≡ rows_answer self.old piece.now constants.old }
        ensures constants_after { constants.new ≡ rows_left self.old piece.now constants.old }
    {
        let parts = self.plan.parts();
        take_rows(parts, &mut self.counts, &mut self.used, piece, constants)
    }

    // Words of the specialised constant columns, column by column.
    pub fn s_words(&mut self, piece: &[u64], constants: &mut [u64]) -> Result<(), Refusal>
        ensures value { taken_with (answer_number result) self.new ≡ s_words_answer self.old piece.now constants.old }
        ensures constants_after { constants.new ≡ s_words_left self.old piece.now constants.old }
    {
        let parts = self.plan.parts();
        take_s_words(parts, &mut self.counts, piece, constants)
    }

    // Cell words of the copy columns, column by column.
    pub fn cells(
        &mut self,
        piece: &[u64],
        copies: &mut [u64],
        scratch: &mut [u64],
    ) -> Result<(), Refusal>
        ensures value { taken_with (answer_number result) self.new ≡ cells_answer self.old piece.now (cols copies.old scratch.old) }
        ensures scratch_after { cols copies.new scratch.new ≡ cells_left self.old piece.now (cols copies.old scratch.old) }
    {
        let parts = self.plan.parts();
        take_cells(parts, &mut self.counts, piece, copies, scratch)
    }

    // Table records: width, rows, contents row by row.
    pub fn tables(&mut self, piece: &[u64], tables: &mut [u64]) -> Result<(), Refusal>
        ensures value { taken_with (answer_number result) self.new ≡ tables_answer self.old piece.now tables.old }
        ensures tables_after { tables.new ≡ tables_left self.old piece.now tables.old }
    {
        let parts = self.plan.parts();
        take_tables(parts, &mut self.counts, piece, tables)
    }

    // Finishing: each seen variable's value goes to its first cell.
    pub fn finish(&mut self, copies: &mut [u64], scratch: &[u64]) -> Result<(), Refusal>
        ensures value { taken_with (answer_number result) self.new ≡ finish_answer self.old (cols copies.old scratch.now) }
        ensures copies_after { copies.new ≡ finish_left self.old (cols copies.old scratch.now) }
    {
        let parts = self.plan.parts();
        take_finish(parts, &mut self.counts, &self.used, copies, scratch)
    }
}
