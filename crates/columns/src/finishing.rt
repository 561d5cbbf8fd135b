// Finishing: marks and scratch words tested, and each seen variable's value written to its first
// cell, by rising index.
ghost use Rattle.std.specs.Prelude.{◌≡◌, true, ◌+◌, ◌*◌, ◌<◌, ◌≤◌, length};
ghost use Rattle.pieces.specs.Finishing.{all_used, variable_fine, scratch_fine, write_back, finish_from};
ghost use Rattle.base.specs.Limits.{most_gates};

use selector::Marks;

// Whether each of the `many` gates is in some row.
pub(crate) fn all_used(many: u64, used: &Marks) -> bool
    requires { many ≤ most_gates }
    ensures { result ≡ all_used many used.now }
{
    (0..many as usize).all(|g| used[g] != 0)
}

// Whether a variable's value is below p and, where it is seen, its first cell one of `cells`.
#[tactic(auto, using(tree::proofs::TestLaws::tests), unfolding(pieces::specs::Finishing::variable_fine))]
fn variable_fine(cells: u64, v: u64, scratch: &[u64]) -> bool
    requires { (v < 4294967296) × (2 * v + 1 < length scratch.now) }
    ensures { result ≡ variable_fine cells scratch.now v }
{
    let at = 2 * v as usize;
    if scratch[at + 1] < cells {
        scratch[at] < field::P
    } else {
        scratch[at] == 0
    }
}

// Whether all variables are fine.
pub(crate) fn scratch_fine(variables: u64, cells: u64, scratch: &[u64]) -> bool
    requires { (variables ≤ 1048576) × (2 * variables ≤ length scratch.now) }
    ensures { result ≡ scratch_fine variables cells scratch.now }
{
    (0..variables).all(|v| variable_fine(cells, v, scratch))
}

// A seen variable's value goes to its first cell.
#[tactic(auto, using(tree::proofs::TestLaws::tests), unfolding(pieces::specs::Finishing::variable_fine, pieces::specs::Finishing::write_back))]
fn write_back(cells: u64, v: u64, scratch: &[u64], copies: &mut [u64])
    requires v_bound { (v < 4294967296) × (2 * v + 1 < length scratch.now) × (cells ≤ length copies.old) }
    requires v_value { variable_fine cells scratch.now v ≡ true }
    ensures { copies.new ≡ write_back v scratch.now copies.old }
{
    let at = 2 * v as usize;
    let value = scratch[at];
    if value != 0 {
        let place = scratch[at + 1] as usize;
        copies[place] = value;
    }
}

// The variables' values, by rising index.
pub(crate) fn write_firsts(variables: u64, cells: u64, scratch: &[u64], copies: &mut [u64])
    requires variables_bound { (variables ≤ 1048576) × (2 * variables ≤ length scratch.now) × (cells ≤ length copies.old) }
    requires scratch_value { scratch_fine variables cells scratch.now ≡ true }
    ensures { copies.new ≡ finish_from 0 variables scratch.now copies.old }
{
    for v in 0..variables {
        write_back(cells, v, scratch, copies);
    }
}
