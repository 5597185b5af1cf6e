//! The worked examples of the account book and the voucher drawer, which the prover computes.
ghost use Rattle.hosts.specs.Examples.{BookExample, DrawerExample};

/// The examples hold: that is what it promises, and it does nothing.
pub fn examples_stand()
    ensures hold { BookExample × DrawerExample }
{}
