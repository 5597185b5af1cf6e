//! The worked example of the stand-in, which the prover computes, and the bound of its rows.
ghost use Rattle.stand_in.specs.Examples.{StandInExample};
ghost use Rattle.stand_in.specs.Floor.{FloorHolds};

use host::Host;

/// The example holds: that is what it promises, and it does nothing.
pub fn examples_stand()
    ensures hold { StandInExample }
{}

/// A new stand-in has no row above its floor, and neither a put nor sending on makes one, over any
/// host: that is what it promises, and it does nothing.
pub fn floor_holds<H: Host>()
    ensures hold { FloorHolds H.Host.put_step }
{}
