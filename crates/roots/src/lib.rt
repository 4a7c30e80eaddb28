// The root's answer under one assignment (document 01, "Answers of a node"). The plain meaning is meaning's `answer` of
// the root; a caller has a list accepted, with its marks and shapes in the work space (rows, specs/Rows, `Prepared`),
// and calls `root_under` for each assignment anew: it stays prepared (pass, specs/Written, `still_prepared`).
#![tactic(auto)]

ghost use Rattle.std.specs.Prelude.{◌≡◌};
ghost use Rattle.meaning.specs.Rules.Trees.{root_of};
ghost use Rattle.meaning.specs.Rules.Answers as answers;
ghost use Rattle.meaning.specs.Rules.Assignments.{given};
ghost use Rattle.rows.specs.Rows.{Prepared};
ghost use Rattle.pass.specs.Written.{with_pairs};

use meaning::Answer;
use nodes::node_count;
use pass::pass;
use rows::answer_at;

// Inner: one pass over the list whose first row is `base`, and what its last row says then.
pub fn root_under(
    nodes: &[u32],
    pool: &[u32],
    bytes: &[u8],
    base: usize,
    work: &mut [u64],
) -> Answer
    requires { Prepared nodes.now pool.now base work.old }
    ensures value { result ≡ answers.answer (given bytes.now) (root_of nodes.now pool.now) }
    ensures work_after { work.new ≡ with_pairs nodes.now pool.now (given bytes.now) base work.old }
{
    pass(nodes, pool, bytes, base, work);
    let end = base + node_count(nodes);
    answer_at(work, end - 1)
}
