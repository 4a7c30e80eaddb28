// The calls over node lists. A block begins with the number and the node of the refusal; 0 and 0 are done.
ghost use Rattle.std.specs.Prelude.{◌≡◌};
ghost use Rattle.meaning.specs.Rules.Calls.{verify, evaluate, compare};
ghost use Rattle.meaning.specs.Rules.Calls as calls;
ghost use Rattle.result_words.specs.Words.{refusal_words};
ghost use Rattle.comparison_words.specs.Words.{comparison_words};
ghost use Rattle.separation_words.specs.Words.{separation_words};
ghost use Rattle.canonical_words.specs.Words.{canonical_words};

use canonical_words::four_words;
use canonicaliser::canonicalize_expr;
use comparer::func_equiv;
use evaluator::eval;
use result_words::two_words;
use separator::separate;
use verifier::verify_expr;

// `verify_expr`: number, node.
#[unsafe(no_mangle)]
#[tactic(auto, using(meaning::proofs::Laws::ResultLaws::verify_back))]
pub extern "C" fn panel_verify(nodes: &[u32], pool: &[u32], work: &mut [u64], answer: &mut [u64; 2])
    ensures answer_after { answer.new ≡ refusal_words (verify nodes.now pool.now work.old).answer }
    ensures work_after { work.new ≡ (verify nodes.now pool.now work.old).work }
{
    *answer = two_words(verify_expr(nodes, pool, work));
}

// `eval`: number, node. The root's answer is the last pair of the output.
#[unsafe(no_mangle)]
#[tactic(auto, using(meaning::proofs::Laws::ResultLaws::evaluate_back))]
pub extern "C" fn panel_evaluate(
    nodes: &[u32],
    pool: &[u32],
    bytes: &[u8],
    work: &mut [u64],
    out: &mut [u64],
    answer: &mut [u64; 2],
)
    ensures answer_after { answer.new ≡ refusal_words (evaluate nodes.now pool.now bytes.now work.old out.old).answer.refusal }
    ensures work_after { work.new ≡ (evaluate nodes.now pool.now bytes.now work.old out.old).work }
    ensures out_after { out.new ≡ (evaluate nodes.now pool.now bytes.now work.old out.old).out }
{
    *answer = two_words(eval(nodes, pool, bytes, work, out));
}

// `func_equiv`: number, node, verdict, index, then state, width and value of the first root and of the second.
#[unsafe(no_mangle)]
#[tactic(auto, using(meaning::proofs::Laws::ResultLaws::compare_back))]
pub extern "C" fn panel_compare(
    nodes: &[u32],
    pool: &[u32],
    second_nodes: &[u32],
    second_pool: &[u32],
    work: &mut [u64],
    answer: &mut [u64; 10],
)
    ensures answer_after { answer.new ≡ comparison_words (compare nodes.now pool.now second_nodes.now second_pool.now work.old).answer }
    ensures work_after { work.new ≡ (compare nodes.now pool.now second_nodes.now second_pool.now work.old).work }
{
    *answer = comparison_words::ten_words(func_equiv(nodes, pool, second_nodes, second_pool, work));
}

// `separate`: number, node, judgement, index, then state, width and value of the root's answer there and of that with
// the run bits cleared.
#[unsafe(no_mangle)]
#[tactic(auto, using(meaning::proofs::Laws::ResultLaws::separate_back))]
pub extern "C" fn panel_separate(
    nodes: &[u32],
    pool: &[u32],
    n: u32,
    marks: u32,
    work: &mut [u64],
    answer: &mut [u64; 10],
)
    ensures answer_after { answer.new ≡ separation_words (calls.separate nodes.now pool.now n marks work.old).answer }
    ensures work_after { work.new ≡ (calls.separate nodes.now pool.now n marks work.old).work }
{
    *answer = separation_words::ten_words(separate(nodes, pool, n, marks, work));
}

// `canonicalize_expr`: number, node, how many node words the canonical list has and how many pool entries. The list
// stands at the start of the two output slices.
#[unsafe(no_mangle)]
#[tactic(auto, using(meaning::proofs::Laws::ResultLaws::canonical_back))]
pub extern "C" fn panel_canonicalize(
    nodes: &[u32],
    pool: &[u32],
    out_nodes: &mut [u32],
    out_pool: &mut [u32],
    work: &mut [u64],
    answer: &mut [u64; 4],
)
    ensures answer_after { answer.new ≡ canonical_words (calls.canonicalise nodes.now pool.now work.old out_nodes.old out_pool.old).answer }
    ensures work_after { work.new ≡ (calls.canonicalise nodes.now pool.now work.old out_nodes.old out_pool.old).work }
    ensures out_nodes_after { out_nodes.new ≡ (calls.canonicalise nodes.now pool.now work.old out_nodes.old out_pool.old).out_nodes }
    ensures out_pool_after { out_pool.new ≡ (calls.canonicalise nodes.now pool.now work.old out_nodes.old out_pool.old).out_pool }
{
    *answer = four_words(canonicalize_expr(nodes, pool, work, out_nodes, out_pool));
}
