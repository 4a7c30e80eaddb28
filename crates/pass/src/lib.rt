// The pass (document 01, "Answers of a node": "Node by node, the evaluator writes state and value"): one walk over
// the nodes in number order, each node's pair from its children's rows, so that no path is walked twice. The plain
// meaning is meaning's Rules/Pairs, `state_at` and `value_at`; a caller has a list accepted and its marks and shapes in
// the work space (rows, specs/Rows, `Prepared`), as `verifier::sound` leaves them, and calls `pass`, for each
// assignment anew. Its contract is an equation for the whole work space (specs/Written, `with_pairs`): columns STATE
// and VALUE of the list's rows, and nothing else, are written. That the answers are those of the plain evaluator is
// specs/Same.
#![tactic(auto)]

ghost use Rattle.std.specs.Prelude.{◌≡◌, ◌<◌};
ghost use Rattle.meaning.specs.Rules.Trees.{node_count};
ghost use Rattle.meaning.specs.Rules.Assignments.{given};
ghost use Rattle.meaning.specs.Rules.Pairs.{state_at, value_at};
ghost use Rattle.rows.specs.Rows.{Prepared, Filled};
ghost use Rattle.pass.specs.Written.{with_pairs};

use answer_words::words_of;
use columns::{MARK, STATE, VALUE, get, put};
use meaning::kinds::Kind;
use nodes::{kind_of, node_count};
use steps::answer_of;

// "or 5 and 0 for Programs and unreachable nodes"
const NO_ANSWER: u64 = 5;

// A node's state and value.
#[derive(Clone, Copy)]
struct Pair {
    state: u64,
    value: u64,
}

// Inner: writes the pair of every node of the list whose first row is `base`, under the assignment that the bytes are.
pub fn pass(nodes: &[u32], pool: &[u32], bytes: &[u8], base: usize, work: &mut [u64])
    requires { Prepared nodes.now pool.now base work.old }
    ensures { work.new ≡ with_pairs nodes.now pool.now (given bytes.now) base work.old }
{
    for i in 0..node_count(nodes) {
        let pair = pair_of(nodes, pool, bytes, base, work, i);
        put(work, STATE, base + i, pair.state);
        put(work, VALUE, base + i, pair.value);
    }
}

// The pair of node n, once those below it are written.
fn pair_of(nodes: &[u32], pool: &[u32], bytes: &[u8], base: usize, work: &[u64], n: usize) -> Pair
    requires filled { Filled nodes.now pool.now (given bytes.now) base work.now n }
    requires n_bound { n < node_count nodes.now }
    ensures state_value { result.state ≡ state_at nodes.now pool.now (given bytes.now) n }
    ensures value_value { result.value ≡ value_at nodes.now pool.now (given bytes.now) n }
{
    if get(work, MARK, base + n) == 0 || kind_of(nodes, n) == Kind::Program {
        return Pair {
            state: NO_ANSWER,
            value: 0,
        };
    }
    let shown = words_of(answer_of(nodes, pool, bytes, base, work, n));
    Pair {
        state: shown.state,
        value: shown.value,
    }
}
