// The laws of model texts.
ghost use Rattle.model_text.specs.GrowthLaw.{LinesGrow};
ghost use Rattle.model_text.specs.ReadBack.{ModelsReadBack};

/// A line is refused exactly if it has a code, which follows from the network of the lines before it, and otherwise adds what it
/// says to that network.
#[tactic(auto, using(crate::proofs::LawLemmas::lines_grow))]
pub fn lines_grow()
    ensures { LinesGrow }
{}

/// What is read from a text is printed as a text that reads back as it.
pub fn models_read_back()
    ensures { ModelsReadBack }
{}
