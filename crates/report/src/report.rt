// The whole report, and the line of a refusal, into a lent buffer: "A refusal prints `refused` and the
// number alone."
ghost use Rattle.std.specs.Prelude.{◌≡◌, true};
ghost use Rattle.octets.specs.Text.{sink, put};
ghost use Rattle.tree.specs.Plan.{plan_fault};
ghost use Rattle.columns.specs.Intake.{setting_of};
ghost use Rattle.report.specs.Report.{refused_line, report_lines, report_of, columns_there};

use crate::lines::{put_columns, put_ids, put_paths, put_plan};
use octets::text::{put_bytes, put_field};
use tree::plan::Plan;

// Answers how many bytes of the buffer it took.
pub fn put_refused(number: u64, out: &mut [u8]) -> usize
    ensures { sink out.new result ≡ put (sink out.old 0) (refused_line number) }
{
    let a = put_bytes(b"refused", 0, out);
    let b = put_field(number, a, out);
    put_bytes(b"\n", b, out)
}

// How many table columns a plan has.
fn table_columns(plan: Plan) -> u64
    requires { plan_fault plan ≡ 0 }
    ensures { result ≡ Rattle.report.specs.Report.table_columns (setting_of plan) }
{
    let lookup = plan.lookup;
    if 0 < lookup.mode() {
        lookup.lookup_width() + 1
    } else {
        0
    }
}

// Whether the columns of a plan are all there.
fn columns_there(plan: Plan, constants: &[u64], copies: &[u64], tables: &[u64]) -> bool
    requires { plan_fault plan ≡ 0 }
    ensures { result ≡ columns_there (setting_of plan) constants.now copies.now tables.now }
{
    ((plan.constants + plan.specialised) * plan.trace) as usize <= constants.len()
        && (plan.copy * plan.trace) as usize <= copies.len()
        && (table_columns(plan) * plan.trace) as usize <= tables.len()
}

fn put_lines(plan: Plan, constants: &[u64], copies: &[u64], tables: &[u64], out: &mut [u8]) -> usize
    requires plan_value { plan_fault plan ≡ 0 }
    requires tables_value { columns_there (setting_of plan) constants.now copies.now tables.now ≡ true }
    ensures { sink out.new result ≡ put (sink out.old 0) (report_lines plan constants.now copies.now tables.now) }
{
    let trace = plan.trace as usize;
    let height = (plan.constants + plan.specialised) as usize;
    let a = put_plan(plan, 0, out);
    let b = put_paths(plan, a, out);
    let c = put_columns(b"constant", trace, height, constants, b, out);
    let d = put_columns(b"copy", trace, plan.copy as usize, copies, c, out);
    let e = put_columns(
        b"table",
        trace,
        table_columns(plan) as usize,
        tables,
        d,
        out,
    );
    put_ids(plan, e, out)
}

// The report of a plan and its finished columns; 19 for a made-up plan, 10 for a buffer too short.
// Answers how many bytes of the buffer it took.
pub fn put_report(
    plan: Plan,
    constants: &[u64],
    copies: &[u64],
    tables: &[u64],
    out: &mut [u8],
) -> usize
    ensures { sink out.new result ≡ put (sink out.old 0) (report_of plan constants.now copies.now tables.now) }
{
    if plan.fault().is_err() {
        return put_refused(19, out);
    }
    if columns_there(plan, constants, copies, tables) {
        return put_lines(plan, constants, copies, tables, out);
    }
    put_refused(10, out)
}
