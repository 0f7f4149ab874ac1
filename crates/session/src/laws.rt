//! Laws of the definitions.
ghost use Rattle.session.specs.Laws.{AreSameTexts};

/// Two images that show the same byte at every address give the same text and the same dumped bytes for the same table,
/// script and presence of a file for dumps: the containers that they came in do not matter. This is a fact of the
/// definitions alone, and the call does nothing.
#[tactic(auto, using(crate::proofs::SameTexts::same_texts))]
pub fn same_texts()
    ensures { AreSameTexts }
{}
