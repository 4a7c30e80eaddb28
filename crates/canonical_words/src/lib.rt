// What the canonicaliser answers as four words (include/panel.h; document 01, "Canonical list"): what crosses the C
// interface. The list itself stands in the output slices. The plain meaning is specs/Words, `canonical_words`.
#![tactic(auto)]

ghost use Rattle.std.specs.Prelude.{◌≡◌};
ghost use Rattle.meaning.specs.Rules.Calls.{canonical_said};
ghost use Rattle.canonical_words.specs.Words.{canonical_words};

use meaning::{Canonical, Refusal};

// Number, node, how many node words the canonical list has and how many pool entries; of a refusal "other fields zero".
pub fn four_words(canonical: Result<Canonical, Refusal>) -> [u64; 4]
    ensures { result ≡ canonical_words (canonical_said canonical) }
{
    match canonical {
        Ok(list) => [0, 0, list.nodes as u64, list.pool as u64],
        Err(refusal) => [refusal.number as u64, refusal.node as u64, 0, 0],
    }
}
