// Plans: the test for a made-up plan, paths, what rows need of the gates, and the table-id index, each of a plan's parts; the same of a plan by value.
ghost use Rattle.std.specs.Prelude.{◌≡◌, None, Ok};
ghost use Rattle.refusal.specs.Refusal.{answer_number, answer_or};
ghost use Rattle.tree.specs.Answers.{column_count, column_index, rows_told, selection_told};
ghost use Rattle.tree.specs.Selection.{selection_length};
ghost use Rattle.tree.specs.Plan.{no_rows, zero_plan, parameters_in, outline_of, parts_plan, plan_fault, path_answer, gate_rows_answer, table_id_answer};

use crate::gate_rows::{GateRows, blocked_by, list_gates};
use crate::made_up::nodes_fit;
use crate::paths::{Path, all_placements, output_placement};
use crate::refusals::{check_gates, extra_of};
use parameters::lookup::LookupParameters;
use parameters::parameters::Parameters;
use refusal::Refusal;
use selector::{GATE_SLOTS, GATE_WORDS, GateSlots, MOST_GATES, MOST_LEVELS, NODE_SLOTS, Nodes};

// Parameters, lookup mode, gates, and the tree in preorder, three words a node; D, K and F. Unused words are 0 in a plan that planning made.
#[derive(Clone, Copy)]
pub struct Plan {
    pub trace: u64,
    pub copy: u64,
    pub allowed: u64,
    pub specialised: u64,
    pub variables: u64,
    pub lookup: LookupParameters,
    pub gates: GateSlots,
    pub gate_count: u64,
    pub nodes: Nodes,
    pub node_count: u64,
    pub degree: u64,
    pub constants: u64,
    pub factor: u64,
}

// What a plan says of its tree: D, K and F.
#[derive(Clone, Copy)]
pub struct Told {
    pub degree: u64,
    pub constants: u64,
    pub factor: u64,
}

// A plan without its words of gates and nodes, which are lent beside it.
#[derive(Clone, Copy)]
pub struct Outline {
    pub trace: u64,
    pub copy: u64,
    pub allowed: u64,
    pub specialised: u64,
    pub variables: u64,
    pub lookup: LookupParameters,
    pub gate_count: u64,
    pub node_count: u64,
    pub told: Told,
}

// A plan in parts: the words of its gates and nodes are lent, so that a caller who holds them hands over no copy of nine kilobytes.
#[derive(Clone, Copy)]
pub struct Parts<'a> {
    pub outline: Outline,
    pub gates: &'a [u64],
    pub nodes: &'a [u64],
}

impl Outline {
    // The parameter words of a plan.
    pub fn parameters(self) -> Parameters
        ensures { result ≡ parameters_in self }
    {
        let lookup = self.lookup;
        Parameters {
            trace: self.trace,
            copy: self.copy,
            allowed: self.allowed,
            specialised: self.specialised,
            variables: self.variables,
            mode: lookup.mode(),
            width: lookup.lookup_width(),
            share: u64::from(lookup.share_table_id()),
        }
    }
}

// A path's length, 0 where there is no selector.
fn length_of(path: Option<Path>) -> u64
    ensures { result ≡ selection_length (selection_told (Ok path)) }
{
    path.map_or(0, |path| path.length)
}

impl<'a> Parts<'a> {
    // A made-up plan: 19.
    #[tactic(auto, using(crate::proofs::TestLaws::tests), unfolding(crate::specs::Plan::plan_fault))]
    pub fn fault(self) -> Result<(), Refusal>
        ensures { answer_number result ≡ plan_fault (parts_plan self.entry) }
    {
        let outline = self.outline;
        let parameters = outline.parameters();
        let gate_count = outline.gate_count;
        if parameters.check().is_err() || gate_count < 1 || (MOST_GATES as u64) < gate_count {
            return Err(Refusal::MadeUp);
        }
        let many = gate_count as usize;
        let end = many * GATE_WORDS;
        if self.gates.len() < end || self.nodes.len() < NODE_SLOTS {
            return Err(Refusal::MadeUp); // a plan's own arrays are never too short, slices may be
        }
        let words = &self.gates[..end];
        if check_gates(words, many, parameters.mode, parameters.allowed).is_err() {
            return Err(Refusal::MadeUp);
        }
        let extra = extra_of(parameters.mode);
        let count = outline.node_count as usize;
        if nodes_fit(words, self.nodes, many, count, extra, outline.told) {
            Ok(())
        } else {
            Err(Refusal::MadeUp)
        }
    }

    // What rows need of each gate: one test of the plan, and one walk of its tree.
    pub fn rows(self) -> Result<GateRows, Refusal>
        ensures number { answer_number result ≡ (gate_rows_answer (parts_plan self.entry)).number }
        ensures rows { answer_or no_rows result ≡ rows_told (gate_rows_answer (parts_plan self.entry)) }
    {
        self.fault()?; // a made-up plan has no rows
        let mut bits = [0; MOST_GATES];
        let mut steps = [0; MOST_GATES];
        let count = self.outline.node_count as usize;
        all_placements(
            self.nodes,
            count,
            0,
            0,
            1,
            0,
            MOST_LEVELS,
            &mut bits,
            &mut steps,
        );
        let many = self.outline.gate_count;
        let blocked = blocked_by(self.gates, many as usize, &bits);
        let mut barred = [0; MOST_GATES];
        let mut own = [0; MOST_GATES];
        let lookup = self.outline.lookup;
        let extra = extra_of(lookup.mode());
        list_gates(
            self.gates,
            many as usize,
            extra,
            blocked,
            &mut barred,
            &mut own,
        );
        Ok(GateRows {
            many,
            bits,
            steps,
            barred,
            own,
        })
    }

    // The path of a gate, or none of a dropped one, which has no selector; 19 first, then 12 for a gate that is not known.
    pub fn path(self, gate: u64) -> Result<Option<Path>, Refusal>
        ensures number { answer_number result ≡ (path_answer (parts_plan self.entry) gate).number }
        ensures selection { selection_told result ≡ (path_answer (parts_plan self.entry) gate).selection }
    {
        self.fault()?; // 19 comes first
        if self.outline.gate_count <= gate {
            return Err(Refusal::RowRecord);
        }
        let count = self.outline.node_count as usize;
        Ok(output_placement(self.nodes, count, 0, gate, MOST_LEVELS))
    }

    // The index of the table-id column: in mode 2 the lookup path's length, in mode 4 K, else there is none. 19 first.
    #[tactic(auto, using(crate::proofs::TestLaws::tests, crate::proofs::PlanCodeLaws::no_fault, crate::proofs::PlanCodeLaws::lookup_index), unfolding(crate::specs::Plan::table_id_answer))]
    pub fn table_id(self) -> Result<Option<u64>, Refusal>
        ensures number { answer_number result ≡ (table_id_answer (parts_plan self.entry)).number }
        ensures count { column_count (answer_or None result) ≡ (table_id_answer (parts_plan self.entry)).count }
        ensures index { column_index (answer_or None result) ≡ (table_id_answer (parts_plan self.entry)).index }
    {
        let path = self.path(0)?;
        Ok(match self.outline.lookup {
            LookupParameters::TableIdAsConstant { .. } => Some(length_of(path)),
            LookupParameters::UseSpecializedColumnsWithTableIdAsConstant { .. } => Some(
                self.outline.told.constants,
            ),
            _ => None,
        })
    }
}

impl Plan {
    // The plan of zeros, which functions over words write after a refusal.
    pub fn zero() -> Self
        ensures { result ≡ zero_plan }
    {
        Plan {
            trace: 0,
            copy: 0,
            allowed: 0,
            specialised: 0,
            variables: 0,
            lookup: LookupParameters::NoLookup,
            gates: [0; GATE_SLOTS],
            gate_count: 0,
            nodes: [0; NODE_SLOTS],
            node_count: 0,
            degree: 0,
            constants: 0,
            factor: 0,
        }
    }

    // The plan without its words of gates and nodes.
    pub fn outline(self) -> Outline
        ensures { result ≡ outline_of self }
    {
        let told = Told {
            degree: self.degree,
            constants: self.constants,
            factor: self.factor,
        };
        Outline {
            trace: self.trace,
            copy: self.copy,
            allowed: self.allowed,
            specialised: self.specialised,
            variables: self.variables,
            lookup: self.lookup,
            gate_count: self.gate_count,
            node_count: self.node_count,
            told,
        }
    }

    // The plan in parts.
    pub fn parts(&self) -> Parts<'_>
        ensures { parts_plan result ≡ self.now }
    {
        Parts {
            outline: self.outline(),
            gates: &self.gates,
            nodes: &self.nodes,
        }
    }

    // A made-up plan: 19.
    pub fn fault(self) -> Result<(), Refusal>
        ensures { answer_number result ≡ plan_fault self }
    {
        self.parts().fault()
    }

    // What is answered of a gate.
    pub fn path(self, gate: u64) -> Result<Option<Path>, Refusal>
        ensures number { answer_number result ≡ (path_answer self gate).number }
        ensures selection { selection_told result ≡ (path_answer self gate).selection }
    {
        self.parts().path(gate)
    }

    // The index of the table-id column.
    pub fn table_id(self) -> Result<Option<u64>, Refusal>
        ensures number { answer_number result ≡ (table_id_answer self).number }
        ensures count { column_count (answer_or None result) ≡ (table_id_answer self).count }
        ensures index { column_index (answer_or None result) ≡ (table_id_answer self).index }
    {
        self.parts().table_id()
    }
}
