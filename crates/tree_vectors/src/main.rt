// Replays recorded plans, paths, table-id indexes, refusals and made-up plans (standard input: the words of
// tree.words) and writes how many records and words were compared, and how many differed.
#![tactic(auto)]

ghost use Rattle.std.specs.Prelude.{◌≡◌, ◌≤◌, length};

use octets::input::fill as read_input;
use parameters::parameters::Parameters;
use refusal::Refusal;
use replay::Replay;
use selector::{GATE_SLOTS, NODE_SLOTS};
use std::io;
use tree::plan::Plan;

// Room for the recording.
fn space() -> [u8; 196608]
    ensures { 196608 ≡ length result }
{
    [0; 196608]
}

// The next eight words as parameters.
fn parameters(bytes: &[u8], start: Replay) -> Parameters {
    let a = start.step();
    let b = a.step();
    let c = b.step();
    let d = c.step();
    let e = d.step();
    let f = e.step();
    let g = f.step();
    Parameters {
        trace: start.word(bytes),
        copy: a.word(bytes),
        allowed: b.word(bytes),
        specialised: c.word(bytes),
        variables: d.word(bytes),
        mode: e.word(bytes),
        width: f.word(bytes),
        share: g.word(bytes),
    }
}

fn past_parameters(start: Replay) -> Replay {
    let s = start.step().step().step().step();
    s.step().step().step().step()
}

// Words go to the front of an array, as many as are counted and as fit.
fn fill(bytes: &[u8], start: Replay, count: u64, words: &mut [u64; 1024]) -> Replay {
    let mut s = start;
    for word in words.iter_mut().take(count as usize) {
        *word = s.word(bytes);
        s = s.step();
    }
    s
}

// What is answered of a listed gate: bits, length and 1 where it has no selector.
fn replay_path(bytes: &[u8], start: Replay, plan: Plan, gate: u64) -> Replay {
    let answer = plan.path(gate);
    let (bits, length, bare) = match answer {
        Ok(Some(path)) => (path.bits, path.length, 0),
        Ok(None) => (0, 0, 1),
        Err(_) => (0, 0, 0),
    };
    start
        .expect(bytes, bits)
        .expect(bytes, length)
        .expect(bytes, bare)
        .note(answer.is_ok())
}

// What is answered of the listed gates, and of the first that is not.
fn replay_paths(bytes: &[u8], start: Replay, plan: Plan) -> Replay {
    let mut s = start;
    for gate in 0..plan.gate_count % 256 {
        s = replay_path(bytes, s, plan, gate);
    }
    s.note(
        plan.path(plan.gate_count)
            .is_err_and(|refusal| refusal == Refusal::RowRecord),
    )
}

// What is recorded of an accepted plan: D, K, F, paths and the table-id index.
fn replay_accepted(bytes: &[u8], start: Replay, plan: Plan) -> Replay {
    let s = start
        .expect(bytes, plan.degree)
        .expect(bytes, plan.constants)
        .expect(bytes, plan.factor);
    let answer = plan.table_id();
    let index = answer.unwrap_or(None);
    replay_paths(bytes, s, plan)
        .expect(bytes, u64::from(index.is_some()))
        .expect(bytes, index.unwrap_or(0))
        .note(answer.is_ok())
        .note(plan.fault().is_ok())
}

// Whether an answer is the refusal of a made-up plan.
fn is_made_up<A: Copy>(answer: Result<A, Refusal>) -> bool {
    answer.is_err_and(|refusal| refusal == Refusal::MadeUp)
}

// The plan of zeros is a made-up one.
fn replay_zero(start: Replay) -> Replay {
    let plan = Plan::zero();
    start
        .note(is_made_up(plan.fault()))
        .note(is_made_up(plan.path(0)))
        .note(is_made_up(plan.table_id()))
}

// The plan of the first words of an array.
fn plan_of(given: Parameters, words: [u64; 1024], count: u64) -> Result<Plan, Refusal> {
    let end = count.min(1024) as usize;
    tree::planning::plan(given, &words[..end])
}

fn replay_plan(bytes: &[u8], start: Replay) -> Replay {
    let given = parameters(bytes, start);
    let s = past_parameters(start);
    let count = s.word(bytes);
    let mut words = [0; 1024];
    let t = fill(bytes, s.step(), count, &mut words);
    match plan_of(given, words, count) {
        Ok(plan) => replay_accepted(bytes, t.expect(bytes, 0), plan),
        Err(refusal) => replay_zero(t.expect(bytes, refusal.number())),
    }
}

// The first words of an array.
fn front<const N: usize>(words: &[u64; 1024]) -> [u64; N]
    requires { N ≤ 1024 }
{
    let mut kept = [0; N];
    kept.copy_from_slice(&words[..N]);
    kept
}

// Whether a plan can hold the words of a lookup mode: a mode of 0 to 4, a flag of 0 or 1, and no width or flag without a lookup.
fn holds(given: Parameters) -> bool {
    let lookup = given.lookup();
    lookup.mode() == given.mode
        && lookup.lookup_width() == given.width
        && lookup.share_table_id() == (given.share == 1)
        && given.share < 2
}

// A made-up plan: parameters, gates, nodes, D, K and F; then its number. Words that no plan can hold are turned down as well.
fn replay_made_up(bytes: &[u8], start: Replay) -> Replay {
    let given = parameters(bytes, start);
    let s = past_parameters(start);
    let gates = s.word(bytes);
    let t = s.step();
    let mut words = [0; 1024];
    let u = fill(bytes, t.step(), t.word(bytes), &mut words);
    let nodes = u.word(bytes);
    let v = u.step();
    let mut links = [0; 1024];
    let x = fill(bytes, v.step(), v.word(bytes), &mut links);
    let y = x.step();
    let z = y.step();
    let plan = Plan {
        trace: given.trace,
        copy: given.copy,
        allowed: given.allowed,
        specialised: given.specialised,
        variables: given.variables,
        lookup: given.lookup(),
        gates: front::<GATE_SLOTS>(&words),
        gate_count: gates,
        nodes: front::<NODE_SLOTS>(&links),
        node_count: nodes,
        degree: x.word(bytes),
        constants: y.word(bytes),
        factor: z.word(bytes),
    };
    let last = z.step();
    if holds(given) {
        return last.expect(bytes, refusal::answer_number(&plan.fault()));
    }
    last.expect(bytes, 19)
}

fn replay_plans(bytes: &[u8], start: Replay, count: u64) -> Replay {
    let mut s = start;
    for _ in 0..count {
        s = replay_plan(bytes, s);
    }
    s
}

fn replay_made_up_plans(bytes: &[u8], start: Replay, count: u64) -> Replay {
    let mut s = start;
    for _ in 0..count {
        s = replay_made_up(bytes, s);
    }
    s
}

fn main(rt: HostRuntime) -> io::Result<()> {
    let mut buffer = space();
    let length = read_input(&mut rt.stdin(), &mut buffer)?;
    let bytes = &buffer[..length];
    let plans = octets::words::word_at(bytes, 2);
    let made_up = octets::words::word_at(bytes, 3);
    let records = Replay::new().step().step().step().step();
    let all = replay_made_up_plans(bytes, replay_plans(bytes, records, plans), made_up);
    let version = all.note(octets::words::word_at(bytes, 0) == 2);
    let s = version
        .note(length / 8 == all.at as usize)
        .note(length % 8 == 0);
    println!(rt; "plans {plans}")?;
    println!(rt; "made-up plans {made_up}")?;
    println!(rt; "{s}")
}
