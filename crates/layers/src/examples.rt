//! The worked examples of the bad line and the range split, which the prover computes.
ghost use Rattle.layers.specs.Examples.{LineExample, SplitExample};

/// The examples hold: that is what it promises, and it does nothing.
pub fn examples_stand()
    ensures hold { LineExample × SplitExample }
{}
